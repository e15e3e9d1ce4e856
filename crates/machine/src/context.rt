// The running thread's context: what of the registers the instructions on its own stack change.
#[derive(Clone, Copy)]
pub struct Context {
    pub pc: usize,
    // The number of cells on the stack: SP is one less.
    pub cells: usize,
    pub fp: usize,
}
