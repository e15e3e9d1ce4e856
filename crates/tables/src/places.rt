// Where a thread is, as a number for each place: not made, ended, running, ready, or in the queue of what it waits for.
ghost use Rattle.std.specs.Prelude.{◌≡◌, ◌+◌, ◌*◌, ◌<◌, ◌≤◌, leb};
ghost use Rattle.machine.specs.Tables.{at_condition, at_end, at_mutex, at_semaphore};
ghost use Rattle.tables.specs.Places.{awaited_at};

use machine::{Condition, Mutex, Semaphore, Thread};

// Numbers and no enum: they stand in lent tables, where C may have put any number, which the test of a well-formed
// state must see.
pub const UNMADE: usize = 0;

pub const ENDED: usize = 1;

pub const RUNNING: usize = 2;

pub const READY: usize = 3;

// The queues of mutexes come first, then those of conditions, of semaphores and of the threads' ends: each kind
// starts so many times the box's number of threads after the first.
pub const FIRST_QUEUE: usize = 4;

const CONDITIONS: usize = 2;

const SEMAPHORES: usize = 4;

const ENDS: usize = 5;

// A function for each kind and no method of `Awaited`: a caller names one kind, and has the bound on its number as a
// plain fact, for which a method would ask by cases.

// A box has 64 mutexes at most.
pub fn at_mutex(m: Mutex) -> usize
    requires { m.0 < 64 }
    ensures { result ≡ at_mutex m.0 }
{
    FIRST_QUEUE + m.0
}

pub fn at_condition(size: usize, c: Condition) -> usize
    requires size_bound { size ≤ 32 }
    requires c_bound { c.0 < 2 * size }
    ensures { result ≡ at_condition size c.0 }
{
    FIRST_QUEUE + CONDITIONS * size + c.0
}

pub fn at_semaphore(size: usize, k: Semaphore) -> usize
    requires size_bound { size ≤ 32 }
    requires k_lt_size { k.0 < size }
    ensures { result ≡ at_semaphore size k.0 }
{
    FIRST_QUEUE + SEMAPHORES * size + k.0
}

// The queue of those who wait for a thread's end.
pub fn at_end(size: usize, t: Thread) -> usize
    requires size_bound { size ≤ 32 }
    requires t_lt_size { t.0 < size }
    ensures { result ≡ at_end size t.0 }
{
    FIRST_QUEUE + ENDS * size + t.0
}

// Whether those at a place wait for a thread's end: their queues are the last.
pub fn awaits_end(size: usize, place: usize) -> bool
    requires { size ≤ 32 }
    ensures { result ≡ leb (4 + 5 * size) place }
{
    FIRST_QUEUE + ENDS * size <= place
}

// What a thread waits for. The number need not be one that was made.
#[derive(Clone, Copy)]
pub enum Awaited {
    Mutex(Mutex),
    Condition(Condition),
    Semaphore(Semaphore),
    End(Thread),
}

// What the threads in the queue of a place wait for.
pub fn awaited_at(size: usize, place: usize) -> Awaited
    requires size_bound { size ≤ 32 }
    requires le_place { 4 ≤ place }
    ensures { result ≡ awaited_at size place }
{
    let conditions = FIRST_QUEUE + CONDITIONS * size;
    let semaphores = FIRST_QUEUE + SEMAPHORES * size;
    let ends = FIRST_QUEUE + ENDS * size;
    if place < conditions {
        return Awaited::Mutex(Mutex(place - FIRST_QUEUE));
    }
    if place < semaphores {
        return Awaited::Condition(Condition(place - conditions));
    }
    if place < ends {
        return Awaited::Semaphore(Semaphore(place - semaphores));
    }
    Awaited::End(Thread(place - ends))
}
