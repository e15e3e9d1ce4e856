// How far a run came: the registers, and the number of instructions carried out, which a call reports. (`Reached` has
// what is left.)
use machine::Registers;

#[derive(Clone, Copy)]
pub struct Progress {
    pub registers: Registers,
    pub count: usize,
}
