// Threads: whose turn it is, waiting, and making one. Inner: the engine calls them on a running machine.
#![tactic(auto, unfolding(machine::specs::Execution::exec, machine::specs::Execution::needs, machine::specs::Execution::within))]

mod makes;
mod turns;

pub use makes::create;
pub use turns::{block, leave, next, yield_turn};
