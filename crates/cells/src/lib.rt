// The cells of the store, and the one range check of the machine. Inner: the instructions use them on a running
// machine.
#![tactic(auto)]

mod attempts;
mod cells;
mod index;
mod kinds;
mod openings;
mod top;

pub use attempts::{past, settled};
pub use cells::{peek, poke, read, write};
pub use index::{checked, offset};
pub use kinds::Numbered;
pub use openings::{Opening, opening_for};
pub use top::{named, popped};
