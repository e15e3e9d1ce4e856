// Sessions of the calls: what the runner's line does not show.
use cma::Outcome;
use machine::Answer;
use std::fmt;
use std::fmt::{Display, Formatter};

// What is lent for a box of 32 threads.
const STORE: usize = 8192;

const TABLES: usize = 224;

const VALUES: usize = 64;

// P14's card: loadc 3, loadc 5, create, return.
const P14: &[u8] =
    b"\x00\x00\x00\x15\x01\x00\x01\x00\x04\x01\x00\x00\x03\x01\x00\x00\x05\x1a\x00\x00\x00\x18\x00\x00\x00";

// An answer in words.
#[derive(Clone, Copy)]
struct Words(Answer);

impl Display for Words {
    fn fmt<W: fmt::Write>(&self, f: &mut Formatter<W>) -> fmt::Result {
        match self.0 {
            Answer::Halted => write!(f, "halted"),
            Answer::Running => write!(f, "running"),
            Answer::Stuck => write!(f, "stuck"),
            Answer::Faulted { number, place } => write!(f, "fault {number} at {place}"),
            Answer::Refused(r) => write!(f, "refused {} at {}", r.reason.number(), r.place),
        }
    }
}

// The answer and the count of a call.
fn outcome(rt: &impl Print, label: &str, o: Outcome) {
    let _ = println!(rt; "{label}: {}, count {}", Words(o.answer), o.count);
}

// P14 run, and the results of both threads.
fn results(rt: &impl Print) {
    let mut store = [0i32; STORE];
    let mut tables = [0usize; TABLES];
    let mut values = [0i32; VALUES];
    let up = cma::set_up(P14, &mut store, &mut tables, &mut values);
    let ran = cma::run(P14, &mut store, &mut tables, &mut values, up.registers, 100);
    outcome(rt, "P14 run", ran);
    let _ = println!(rt; "P14 result of thread 0: {}", values[0]);
    let _ = println!(rt; "P14 result of thread 1: {}", values[1]);
}

// A set-up refused for want of bytes, and then a step with a good card.
fn refused_set_up(rt: &impl Print) {
    let mut store = [0i32; STORE];
    let mut tables = [0usize; TABLES];
    let mut values = [0i32; VALUES];
    let up = cma::set_up(b"", &mut store, &mut tables, &mut values);
    outcome(rt, "set-up with no bytes", up);
    let stepped = cma::step(P14, &mut store, &mut tables, &mut values, up.registers);
    outcome(rt, "a step after it, with a good card", stepped);
}

pub fn sessions(rt: &impl Print) {
    results(rt);
    refused_set_up(rt);
}
