// What the tables hold of a thread: its place, and the registers that were saved of it.
ghost use Rattle.std.specs.Prelude.{◌≡◌, ◌<◌, ◌≤◌, eqb, get_or, length};
ghost use Rattle.machine.specs.Tables.{any_live, ended, lives, place_of, saved, tables_of};
ghost use Rattle.tables.specs.Good.{Good, Left};

use crate::layout;
use crate::places::ENDED;
use machine::{Context, Thread};

pub fn place(tables: &[usize], size: usize, t: Thread) -> usize
    requires good { Good size tables.now }
    requires t_lt_size { t.0 < size }
    ensures { result ≡ place_of (tables_of size tables.now) t.0 }
{
    let at = t.0;
    tables[at]
}

// Whether a thread has ended. It asks only for the tables' length, so that the runner can look at what a call left.
pub fn has_ended(tables: &[usize], size: usize, t: Thread) -> bool
    requires size_in_bounds { size ≤ length tables.now }
    requires t_lt_size { t.0 < size }
    ensures { result ≡ eqb (place_of (tables_of size tables.now) t.0) ended }
{
    let at = t.0;
    tables[at] == ENDED
}

pub fn lives(tables: &[usize], size: usize, t: Thread) -> bool
    requires good { Good size tables.now }
    requires t_lt_size { t.0 < size }
    ensures { result ≡ lives (tables_of size tables.now) t.0 }
{
    ENDED < place(tables, size, t)
}

pub fn any_live(tables: &[usize], size: usize) -> bool
    requires { Good size tables.now }
    ensures { result ≡ any_live size (tables_of size tables.now) }
{
    (0..size).any(|t| lives(tables, size, Thread(t)))
}

// The registers that were saved of a thread, which it goes on with.
pub fn saved(tables: &[usize], size: usize, t: Thread) -> Context
    requires good { Good size tables.now }
    requires t_lt_size { t.0 < size }
    ensures pc { result.pc ≡ get_or (tables_of size tables.now).pcs t.0 0 }
    ensures cells { result.cells ≡ get_or (tables_of size tables.now).depths t.0 0 }
    ensures fp { result.fp ≡ get_or (tables_of size tables.now).frames t.0 0 }
{
    let at = t.0;
    Context {
        pc: tables[layout::PCS * size + at],
        cells: tables[layout::CELLS * size + at],
        fp: tables[layout::FRAMES * size + at],
    }
}

pub fn save(tables: &mut [usize], size: usize, t: Thread, context: Context)
    requires good { Good size tables.old }
    requires t_lt_size { t.0 < size }
    ensures { Left size tables.new
        (saved (tables_of size tables.old) t.0 context.pc context.cells context.fp) }
{
    let at = t.0;
    tables[layout::PCS * size + at] = context.pc;
    tables[layout::CELLS * size + at] = context.cells;
    tables[layout::FRAMES * size + at] = context.fp;
}
