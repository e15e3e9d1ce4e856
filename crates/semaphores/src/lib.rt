// Semaphores. Inner: the engine calls these functions on a running machine.
#![tactic(auto, unfolding(machine::specs::Execution::exec, machine::specs::Execution::needs, machine::specs::Execution::within, cells::specs::Top::number_at, machine::specs::Execution::opening))]

mod making;
mod moving;

pub use making::newsema;
pub use moving::{down, up};
