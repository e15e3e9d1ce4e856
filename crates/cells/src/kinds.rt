// The kinds of things that instructions name by number: threads, mutexes, conditions and semaphores.
ghost use Rattle.std.specs.Prelude.{◌≡◌, ℕ};
ghost use Rattle.machine.specs.declared.faults.Fault.{Fault};
ghost use Rattle.machine.specs.declared.faults.Fault.TheVariants.{NoCondition, NoMutex, NoSemaphore, NoThread};
ghost use Rattle.machine.specs.declared.registers.Registers.{Registers};

use machine::{Condition, Fault, Mutex, Registers, Semaphore, Thread};

// A number of a kind is made by the check that it is one of those made.
pub trait Numbered {
    ghost number: { Self → ℕ };

    ghost made: { Registers → ℕ };

    ghost MISSING: { Fault };

    // The fault where there is none of that number.
    const MISSING: Fault;

    // How many were made.
    fn made(r: Registers) -> usize
        ensures { result ≡ made r };

    fn numbered(n: usize) -> Self
        ensures { number result ≡ n };
}

impl Numbered for Thread {
    ghost number = { λ t. t.0 };

    ghost made = { λ r. r.threads };

    ghost MISSING = { NoThread };

    const MISSING: Fault = Fault::NoThread;

    fn made(r: Registers) -> usize {
        r.threads
    }

    fn numbered(n: usize) -> Self {
        Thread(n)
    }
}

impl Numbered for Mutex {
    ghost number = { λ m. m.0 };

    ghost made = { λ r. r.mutexes };

    ghost MISSING = { NoMutex };

    const MISSING: Fault = Fault::NoMutex;

    fn made(r: Registers) -> usize {
        r.mutexes
    }

    fn numbered(n: usize) -> Self {
        Mutex(n)
    }
}

impl Numbered for Condition {
    ghost number = { λ c. c.0 };

    ghost made = { λ r. r.conditions };

    ghost MISSING = { NoCondition };

    const MISSING: Fault = Fault::NoCondition;

    fn made(r: Registers) -> usize {
        r.conditions
    }

    fn numbered(n: usize) -> Self {
        Condition(n)
    }
}

impl Numbered for Semaphore {
    ghost number = { λ k. k.0 };

    ghost made = { λ r. r.semaphores };

    ghost MISSING = { NoSemaphore };

    const MISSING: Fault = Fault::NoSemaphore;

    fn made(r: Registers) -> usize {
        r.semaphores
    }

    fn numbered(n: usize) -> Self {
        Semaphore(n)
    }
}
