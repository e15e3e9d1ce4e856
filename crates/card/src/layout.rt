// Where an image has what.

// The version's byte, behind the length.
pub const VERSION: usize = 4;

// What it is.
pub const THE_VERSION: u8 = 1;

// The two bytes of the number of global cells.
pub const CELLS: usize = 5;

// The two bytes of the number of instructions.
pub const COUNT: usize = 7;

// The instructions, four bytes each.
pub const CODE: usize = 9;
