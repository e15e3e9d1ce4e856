// The machine's types: registers by value, the numbers of threads, mutexes, conditions and semaphores, and the answers.
#![tactic(auto)]

mod answers;
mod context;
mod faults;
mod numbers;
mod registers;
pub mod sizes;
pub mod states;

pub use answers::Answer;
pub use context::Context;
pub use faults::{Fault, UnknownFault};
pub use numbers::{Condition, Mutex, Semaphore, Thread};
pub use registers::Registers;
