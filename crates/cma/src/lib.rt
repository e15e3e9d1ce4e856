// The machine under the cards: set-up, step and run. These are the public functions: they take any input, and refuse
// what is bad.
#![tactic(auto)]

mod calls;

pub use calls::{run, step};
pub use opening::set_up;
pub use outcome::Outcome;
