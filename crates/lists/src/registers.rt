// The registers as eleven numbers, and a call's answer and count as four.
ghost use Rattle.std.specs.Prelude.{◌≡◌};
ghost use Rattle.machine.specs.Calls.{told};
ghost use Rattle.lists.specs.Lists.{answer_list, list_of, registers_of};

use machine::{Answer, Registers, states};

// Beside the machine's four states: a call that was refused.
const REFUSED: usize = 4;

// Functions and no `From`: registers and arrays are types of other crates.
pub fn take_registers(list: &[usize; 11]) -> Registers
    ensures { result ≡ registers_of list.now }
{
    Registers {
        state: list[0],
        fault: list[1],
        thread: list[2],
        pc: list[3],
        cells: list[4],
        fp: list[5],
        free: list[6],
        threads: list[7],
        mutexes: list[8],
        conditions: list[9],
        semaphores: list[10],
    }
}

pub fn list_of(r: Registers) -> [usize; 11]
    ensures { result ≡ list_of r }
{
    [
        r.state,
        r.fault,
        r.thread,
        r.pc,
        r.cells,
        r.fp,
        r.free,
        r.threads,
        r.mutexes,
        r.conditions,
        r.semaphores,
    ]
}

// The state, or that the call was refused, the number of a fault or refusal, its place, and a count.
pub fn report_of(answer: Answer, count: usize) -> [usize; 4]
    ensures { result ≡ answer_list (told answer) count }
{
    match answer {
        Answer::Halted => [states::HALTED, 0, 0, count],
        Answer::Running => [states::RUNNING, 0, 0, count],
        Answer::Stuck => [states::STUCK, 0, 0, count],
        Answer::Faulted { number, place } => [states::FAULTED, number, place, count],
        Answer::Refused(refusal) => [REFUSED, refusal.reason.number(), refusal.place, count],
    }
}
