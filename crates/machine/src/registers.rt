// The registers. They go in by value and come back advanced.
ghost use Rattle.std.specs.Prelude.{◌≡◌, ◌≤◌};
ghost use Rattle.machine.specs.Context.{in_context};
ghost use Rattle.machine.specs.Registers.{advanced, stopped, switched, with_cells, with_free, with_made, with_semaphores, with_state};

use crate::context::Context;
use crate::numbers::Thread;
use crate::states;

// The order of the fields is for speed: with those that an instruction changes far apart, the compiler keeps each in
// a register of its own instead of copying several as one block.
#[derive(Clone, Copy, Default)]
pub struct Registers {
    // The next free shared cell.
    pub free: usize,
    pub pc: usize,
    // How many threads, mutexes, conditions and semaphores were made.
    pub threads: usize,
    // The number of cells on the stack: SP is one less.
    pub cells: usize,
    pub mutexes: usize,
    // The running thread, or the number of threads of the box where none runs.
    pub thread: usize,
    pub conditions: usize,
    // One of `states`, or any other number that was lent.
    pub state: usize,
    // The number of the fault, 0 where there is none.
    pub fault: usize,
    pub semaphores: usize,
    pub fp: usize,
}

impl Registers {
    // Past the instruction at PC.
    pub fn advance(mut self) -> Self
        requires { self.pc ≤ 4096 }
        ensures { result ≡ advanced self }
    {
        self.pc = self.pc + 1;
        self
    }

    // To another thread, with the registers that were saved for it.
    pub fn switch(mut self, to: Thread, pc: usize, cells: usize, fp: usize) -> Self
        ensures { result ≡ switched self to.0 pc cells fp }
    {
        self.thread = to.0;
        self.pc = pc;
        self.cells = cells;
        self.fp = fp;
        self
    }

    // The same thread in another context.
    pub fn with_context(mut self, c: Context) -> Self
        ensures { result ≡ in_context self self.thread c }
    {
        self.pc = c.pc;
        self.cells = c.cells;
        self.fp = c.fp;
        self
    }

    // With a fault's number: everything else stays.
    pub fn stop(mut self, number: usize) -> Self
        ensures { result ≡ stopped self number }
    {
        self.state = states::FAULTED;
        self.fault = number;
        self
    }

    // With another number of cells, next free cell.
    pub fn with_cells(mut self, cells: usize) -> Self
        ensures { result ≡ with_cells self cells }
    {
        self.cells = cells;
        self
    }

    pub fn with_free(mut self, free: usize) -> Self
        ensures { result ≡ with_free self free }
    {
        self.free = free;
        self
    }

    // With other counts of the threads, mutexes and conditions made.
    pub fn with_made(mut self, threads: usize, mutexes: usize, conditions: usize) -> Self
        ensures { result ≡ with_made self threads mutexes conditions }
    {
        self.threads = threads;
        self.mutexes = mutexes;
        self.conditions = conditions;
        self
    }

    // With another count of the semaphores made.
    pub fn with_semaphores(mut self, semaphores: usize) -> Self
        ensures { result ≡ with_semaphores self semaphores }
    {
        self.semaphores = semaphores;
        self
    }

    // In another state, with another running thread.
    pub fn with_state(mut self, state: usize, thread: usize) -> Self
        ensures { result ≡ with_state self state thread }
    {
        self.state = state;
        self.thread = thread;
        self
    }
}
