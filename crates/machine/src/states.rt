// The states of a machine, as the registers hold them. Numbers and no enum, as the fault beside them is: C lends
// registers with any number there, which the test of a well-formed state must see and hand back.
pub const HALTED: usize = 0;

pub const RUNNING: usize = 1;

pub const STUCK: usize = 2;

pub const FAULTED: usize = 3;
