// The machine for programs in C: each exported function takes any input, and says all that it leaves.
#![tactic(auto)]

mod calls;
mod cards;
mod texts;

pub use calls::{leprahoon_run, leprahoon_set_up, leprahoon_step};
pub use cards::{leprahoon_line, leprahoon_read, leprahoon_write};
pub use texts::{leprahoon_import, leprahoon_list};
