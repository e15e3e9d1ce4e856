// Numbers of threads, mutexes, conditions and semaphores, each a type of its own: thread 3, mutex 3 and condition 3
// are unrelated.
#[derive(Clone, Copy, PartialEq, Eq)]
pub struct Thread(pub usize);

#[derive(Clone, Copy, PartialEq, Eq)]
pub struct Mutex(pub usize);

#[derive(Clone, Copy, PartialEq, Eq)]
pub struct Condition(pub usize);

#[derive(Clone, Copy, PartialEq, Eq)]
pub struct Semaphore(pub usize);
