// The card image: its reader and its code part. The public functions are `read` and `code_part`, which take any
// input. The others are inner, for the writer and the machine.
#![tactic(auto)]

mod checking;
mod fetching;
pub mod layout;
mod reader;
mod refusals;
mod word_list;

pub use checking::scan;
pub use fetching::{Instruction, fetch, unpack};
pub use reader::{code_part, last_of, out_of_range, read};
pub use refusals::{Reason, Refusal, refuse_if};
pub use word_list::{CodeWords, WordList};
