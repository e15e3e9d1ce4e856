// The sizes of a box, and of what is in it.

// The instructions of the longest card: PC is at most that.
pub const INSTRUCTIONS: usize = 4096;

// The cells of one stack.
pub const STACK: usize = 128;

// The number of its last cell.
pub const LAST_CELL: usize = 127;

// The cells on a new thread's stack.
pub const NEW_CELLS: usize = 3;

// A new thread's FP, which is the least there is.
pub const NEW_FP: usize = 2;

// From here on: so many for each thread of the box. The shared cells:
pub const SHARED: usize = 128;

// The cells of the whole store.
pub const STORE: usize = 256;

// The numbers of the tables.
pub const TABLES: usize = 7;

// The values.
pub const VALUES: usize = 2;

// The mutexes that can be made.
pub const MUTEXES: usize = 2;

// And the conditions.
pub const CONDITIONS: usize = 2;
