// The counts of semaphores against the number of those who wait. Inner: the test of a well-formed state asks it of
// what was lent.
#![tactic(auto)]

mod levels;

pub use levels::levels_fit;
