// Registers and answers as lists of numbers. Inner: the functions for C take and give them.
#![tactic(auto)]

mod registers;
mod results;

pub use registers::{list_of, report_of, take_registers};
pub use results::{Value, length_of, list_of_result};
