// A constant is pushed.
ghost use Rattle.machine.specs.Instructions.{loadc};
ghost use Rattle.cells.specs.Attempts.{Fit, Tries};
ghost use Rattle.std.specs.Prelude.{length};

use cells::poke;
use machine::{Context, Fault, sizes};

pub fn loadc(store: &mut [i32], size: usize, t: usize, c: Context, k: i32) -> Result<Context, Fault>
    requires { Fit size t c (length store.old) }
    ensures { Tries size (loadc k) store.old t c store.new result }
{
    let cells = c.cells;
    if sizes::LAST_CELL < cells {
        return Err(Fault::StackOverflow);
    }
    poke(store, size, t, cells, k);
    Ok(Context {
        cells: cells + 1,
        ..c
    })
}
