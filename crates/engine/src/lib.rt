// The engine: a run of many instructions, of a machine that is in order. Inner: the public calls test their input
// first.
#![tactic(auto)]

mod cards;
mod progress;
mod reached;
mod runs;
mod stretches;
mod turns;

pub use cards::Card;
pub use progress::Progress;
pub use runs::run;
