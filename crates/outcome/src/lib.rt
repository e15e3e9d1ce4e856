// What a call gives back: its answer, the number of instructions carried out, and the registers. Inner: the public
// calls make it.
#![tactic(auto)]

ghost use Rattle.std.specs.Prelude.{◌≡◌};
ghost use Rattle.outcome.specs.Outcome.{Ends, refused};
ghost use Rattle.machine.specs.Calls.{answer_of, told};
ghost use Rattle.machine.specs.Registers.{zeros};

use card::Refusal;
use machine::{Answer, Registers, states};

#[derive(Clone, Copy)]
pub struct Outcome {
    pub answer: Answer,
    pub count: usize,
    pub registers: Registers,
}

// A call that changes nothing.
pub fn refused(refusal: Refusal, r: Registers) -> Outcome
    ensures { result ≡ refused refusal r }
{
    Outcome {
        answer: Answer::Refused(refusal),
        count: 0,
        registers: r,
    }
}

// All registers 0, which is halted.
pub fn no_registers() -> Registers
    ensures { result ≡ zeros }
{
    Registers::default()
}

// The state of a machine as a call answers it.
pub fn answer_of(r: Registers) -> Answer
    ensures { told result ≡ answer_of r }
{
    match r.state {
        states::RUNNING => Answer::Running,
        states::STUCK => Answer::Stuck,
        states::FAULTED => Answer::Faulted {
            number: r.fault,
            place: r.pc,
        },
        _ => Answer::Halted,
    }
}

// A call that was not refused.
pub fn ended(registers: Registers, count: usize) -> Outcome
    ensures { Ends registers count result }
{
    Outcome {
        answer: answer_of(registers),
        count,
        registers,
    }
}
