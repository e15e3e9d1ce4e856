// Shared cells: read, written and made. Inner: the engine calls them on a running machine.
#![tactic(auto, unfolding(machine::specs::Execution::exec, machine::specs::Execution::needs, machine::specs::Execution::within, machine::specs::Execution::fresh))]

mod shared;

pub use shared::{fresh, load, store_cell};
