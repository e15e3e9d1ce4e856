// The running thread's own stack: values pushed, popped and moved on it. Inner: the engine calls them on a running
// machine.
#![tactic(auto, unfolding(machine::specs::Execution::exec, machine::specs::Execution::needs, machine::specs::Execution::rooms, machine::specs::Execution::within))]

mod constants;
mod frames;
mod stack_ops;

pub use constants::loadc;
pub use frames::{loadr, storer};
pub use stack_ops::{alloc, dup, mark, pop};
