// Arithmetic and comparisons on the top of a stack. Inner: the engine calls them on a running machine, with an opcode
// of their own.
#![tactic(auto, unfolding(machine::specs::Execution::exec, machine::specs::Execution::needs, machine::specs::Execution::within, machine::specs::Execution::fits, machine::specs::Execution::divides))]

mod comparisons;
mod numbers;
mod single;

pub use comparisons::compare;
pub use numbers::binary;
pub use single::{neg, not};
