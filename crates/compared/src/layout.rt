// The layout of the lent tables and values of a box of 32 threads, which is read as it is, not by the machine's
// functions.

pub const THREADS: usize = 32;

// The tables: each thread's place, saved PC, number of cells and FP, each mutex's owner, and the line.
pub const SAVED_PC: usize = 32;

pub const SAVED_CELLS: usize = 64;

pub const SAVED_FP: usize = 96;

pub const OWNERS: usize = 128;

pub const LINE: usize = 192;

pub const TABLES: usize = 224;

// The owner of a free mutex.
pub const FREE: usize = 32;

// Places. Those from the mutexes' on are behind the number of what is waited for.
pub const ENDED: usize = 1;

pub const READY: usize = 3;

pub const AT_MUTEX: usize = 4;

pub const AT_CONDITION: usize = 68;

pub const AT_SEMAPHORE: usize = 132;

pub const AT_END: usize = 164;

// The first number that is no place.
pub const PLACES: usize = 196;

// The values: each ended thread's, and the counts.
pub const COUNTS: usize = 32;

pub const VALUES: usize = 64;

pub const STORE: usize = 8192;
