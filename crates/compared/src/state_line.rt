// A state line: the registers, the store's hash, the queues and what is held of each mutex, semaphore and thread.
use crate::groups::put_groups;
use crate::hash::hash;
use crate::layout::READY;
use crate::lent::Lent;
use crate::queues::Queue;
use machine::Registers;
use std::fmt;
use std::fmt::{Display, Formatter};

#[derive(Clone, Copy)]
pub struct State<'a> {
    pub registers: Registers,
    pub lent: &'a Lent,
}

// The state and the running thread's registers.
fn put_running<W: fmt::Write>(f: &mut Formatter<W>, r: Registers) -> fmt::Result {
    write!(f, "{} {} {} ", r.state, r.fault, r.thread)?;
    write!(f, "{} {} {} ", r.pc, r.cells, r.fp)
}

// What was made.
fn put_made<W: fmt::Write>(f: &mut Formatter<W>, r: Registers) -> fmt::Result {
    write!(f, "{} {} {} ", r.free, r.threads, r.mutexes)?;
    write!(f, "{} {} ", r.conditions, r.semaphores)
}

impl Display for State<'_> {
    fn fmt<W: fmt::Write>(&self, f: &mut Formatter<W>) -> fmt::Result {
        put_running(f, self.registers)?;
        put_made(f, self.registers)?;
        let ready = Queue {
            tables: &self.lent.tables,
            place: READY,
        };
        write!(f, "{:016x} r:{ready}", hash(&self.lent.store))?;
        put_groups(f, self.lent, self.registers.semaphores)
    }
}
