// The stack itself: cells come and go at its top.
ghost use Rattle.std.specs.Prelude.{ℕ, ◌≤◌, ℤ, List, length};
ghost use Rattle.machine.specs.Instructions.{alloc, dup, mark, pop};
ghost use Rattle.cells.specs.Attempts.{Fit, Tries};
ghost use Rattle.cells.specs.Contract.{Able, Does, settled_of};

use crate::constants::loadc;
use cells::{peek, poke};
use machine::{Context, Fault, Registers, sizes};

pub fn alloc(store: &mut [i32], size: usize, r: Registers, k: usize) -> Result<Registers, Fault>
    requires able { Able size r (length store.old) }
    requires k_bound { k ≤ 128 }
    ensures { Does size (alloc k) store.old r store.new (settled_of r result) }
{
    let cells = r.cells;
    let end = cells + k;
    if sizes::STACK < end {
        return Err(Fault::StackOverflow);
    }
    for i in cells..end {
        poke(store, size, r.thread, i, 0);
    }
    Ok(r.advance().with_cells(end))
}

pub fn pop(c: Context) -> Result<Context, Fault>
    ensures { (size t : ℕ) (store : List ℤ) → Tries size pop store t c store result }
{
    let cells = c.cells;
    if cells < 1 {
        return Err(Fault::StackUnderflow);
    }
    Ok(Context {
        cells: cells - 1,
        ..c
    })
}

pub fn dup(store: &mut [i32], size: usize, t: usize, c: Context) -> Result<Context, Fault>
    requires { Fit size t c (length store.old) }
    ensures { Tries size dup store.old t c store.new result }
{
    let cells = c.cells;
    if cells < 1 {
        return Err(Fault::StackUnderflow);
    }
    let top = peek(store, size, t, cells - 1);
    loadc(store, size, t, c, top)
}

// FP, as a number.
pub fn mark(store: &mut [i32], size: usize, t: usize, c: Context) -> Result<Context, Fault>
    requires { Fit size t c (length store.old) }
    ensures { Tries size mark store.old t c store.new result }
{
    loadc(store, size, t, c, c.fp as i32)
}
