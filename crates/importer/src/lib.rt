// The way back from a card's text to its image. `import` is public and takes any input; the other functions are inner.
#![tactic(auto)]

mod header;
mod importing;
mod items;
mod lines;
mod operands;

pub use importing::import;
