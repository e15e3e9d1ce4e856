// The parts of the well-formed test that ask nothing of the tables before: the registers' ranges, and the line of
// threads. Inner.
#![tactic(auto)]

mod order;
mod registers;

pub use order::line_fits;
pub use registers::{fault_fits, frame_fits, registers_fit};
