// How far a part of a run has come.

#[derive(Clone, Copy)]
pub struct Reached<T> {
    // A thread's context, or the registers.
    pub at: T,
    // What is left of the budget.
    pub left: usize,
}
