// Where the thread goes on: jumps, a call and the way back from it, and the end of the run. Inner: the engine calls
// them on a running machine.
#![tactic(auto, unfolding(machine::specs::Execution::exec, machine::specs::Execution::needs, machine::specs::Execution::within))]

mod control;

pub use control::{back, call, halt, jump, jumpz};
