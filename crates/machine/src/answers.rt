// What a call answers.
use card::Refusal;

#[derive(Clone, Copy)]
pub enum Answer {
    Halted,
    Running,
    Stuck,
    // The fault's number, and the PC of the instruction.
    Faulted { number: usize, place: usize },
    // A call that was refused: it changed nothing.
    Refused(Refusal),
}
