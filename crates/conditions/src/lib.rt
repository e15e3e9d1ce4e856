// Conditions. Inner: the engine calls these functions on a running machine.
#![tactic(auto, unfolding(machine::specs::Execution::exec, machine::specs::Execution::needs, machine::specs::Execution::within, cells::specs::Top::number_at, machine::specs::Execution::rooms, machine::specs::Execution::owns))]

mod waiting;
mod waking;

pub use waiting::{newcond, wait};
pub use waking::{broadcast, signal};
