// The operators on top alone.
ghost use Rattle.std.specs.Prelude.{length};
ghost use Rattle.machine.specs.Instructions.{neg, not};
ghost use Rattle.cells.specs.Attempts.{Fit, Tries};

use machine::{Context, Fault};

pub fn neg(store: &mut [i32], size: usize, t: usize, c: Context) -> Result<Context, Fault>
    requires { Fit size t c (length store.old) }
    ensures { Tries size neg store.old t c store.new result }
{
    let cells = c.cells;
    if cells < 1 {
        return Err(Fault::StackUnderflow);
    }
    let top = cells::peek(store, size, t, cells - 1);
    let Some(v) = top.checked_neg() else {
        return Err(Fault::Arithmetic);
    };
    cells::poke(store, size, t, cells - 1, v);
    Ok(c)
}

pub fn not(store: &mut [i32], size: usize, t: usize, c: Context) -> Result<Context, Fault>
    requires { Fit size t c (length store.old) }
    ensures { Tries size not store.old t c store.new result }
{
    let cells = c.cells;
    if cells < 1 {
        return Err(Fault::StackUnderflow);
    }
    let top = cells::peek(store, size, t, cells - 1);
    cells::poke(store, size, t, cells - 1, i32::from(top == 0));
    Ok(c)
}
