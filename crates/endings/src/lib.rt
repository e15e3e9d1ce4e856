// A thread's end, and who waits for it. Inner: the engine calls these functions on a running machine.
#![tactic(auto, unfolding(machine::specs::Execution::exec, machine::specs::Execution::needs, machine::specs::Execution::within, machine::specs::Execution::frame, cells::specs::Top::number_at))]

mod delivery;
mod ends;
mod returns;

pub use ends::{exit, finalize, join};
pub use returns::return_from;
