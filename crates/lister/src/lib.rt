// A card as text, line by line. `list_line` is public and takes any input; the other functions are inner.
#![tactic(auto)]

mod line_writer;
mod lines;
mod listing;

pub use lines::ROOM;
pub use listing::list_line;
