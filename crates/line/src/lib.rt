// The runner's line: a card is run and what came of it is written as text. `runner_line` is public; the other
// functions are inner, `put_refused` too, which other programs call for the line of a refusal.
#![tactic(auto)]

mod answers;
mod words;

pub use answers::{ROOM, runner_line};
pub use words::put_refused;
