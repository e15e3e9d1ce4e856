// Where the regions of the tables start, each so many times the box's number of threads: the threads' places come
// first, then the saved PC, number of cells and FP of each thread, the mutexes' owners, and last the line.
ghost use Rattle.std.specs.Prelude.{◌≡◌, ◌*◌, ◌≤◌, length};
ghost use Rattle.machine.specs.Tables.{tables_of};
ghost use Rattle.tables.specs.Start.{start_at};

use crate::places::{RUNNING, UNMADE};

pub const PCS: usize = 1;

pub const CELLS: usize = 2;

pub const FRAMES: usize = 3;

pub const OWNERS: usize = 4;

pub const LINE: usize = 6;

// The line of threads, the last region.
pub fn line_of(tables: &[usize], size: usize) -> &[usize]
    requires size_bound { size ≤ 32 }
    requires tables_len { length tables.now ≡ 7 * size }
    ensures { result.now ≡ (tables_of size tables.now).line }
{
    &tables[LINE * size..]
}

// Number `i` of the tables at the start: thread 0 runs, no other is made, every mutex is free, and the line is in
// number order.
pub fn start_at(size: usize, i: usize) -> usize
    requires { size ≤ 32 }
    ensures { result ≡ start_at size i }
{
    if i == 0 {
        return RUNNING;
    }
    if i < OWNERS * size {
        return UNMADE;
    }
    if i < LINE * size {
        return size;
    }
    i - LINE * size
}
