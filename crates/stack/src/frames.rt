// Cells of the running function's frame, by their distance from FP.
ghost use Rattle.machine.specs.Instructions.{loadr, storer};
ghost use Rattle.cells.specs.Attempts.{Fit, Tries};
ghost use Rattle.std.specs.Prelude.{length};

use crate::constants::loadc;
use cells::{offset, peek, poke};
use machine::{Context, Fault, sizes};

pub fn loadr(store: &mut [i32], size: usize, t: usize, c: Context, k: i32) -> Result<Context, Fault>
    requires { Fit size t c (length store.old) }
    ensures { Tries size (loadr k) store.old t c store.new result }
{
    let cells = c.cells;
    // No room comes before no such cell.
    if sizes::LAST_CELL < cells {
        return Err(Fault::StackOverflow);
    }
    let Some(i) = offset(c.fp, k, cells) else {
        return Err(Fault::BadAddress);
    };
    let v = peek(store, size, t, i);
    loadc(store, size, t, c, v)
}

pub fn storer(
    store: &mut [i32],
    size: usize,
    t: usize,
    c: Context,
    k: i32,
) -> Result<Context, Fault>
    requires { Fit size t c (length store.old) }
    ensures { Tries size (storer k) store.old t c store.new result }
{
    let cells = c.cells;
    if cells < 1 {
        return Err(Fault::StackUnderflow);
    }
    let Some(i) = offset(c.fp, k, cells) else {
        return Err(Fault::BadAddress);
    };
    let top = peek(store, size, t, cells - 1);
    poke(store, size, t, i, top);
    Ok(c)
}
