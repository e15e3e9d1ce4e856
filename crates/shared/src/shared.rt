// Shared cells: read, written and made.
ghost use Rattle.machine.specs.Instructions.{load, new, store as stores};
ghost use Rattle.cells.specs.Attempts.{Fit, Tries};
ghost use Rattle.cells.specs.Contract.{Able, Does, settled_of};
ghost use Rattle.std.specs.Prelude.{length};

use cells::{checked, peek, poke, read, write};
use machine::{Context, Fault, Registers, sizes};

pub fn load(store: &mut [i32], size: usize, t: usize, c: Context) -> Result<Context, Fault>
    requires { Fit size t c (length store.old) }
    ensures { Tries size load store.old t c store.new result }
{
    let cells = c.cells;
    if cells < 1 {
        return Err(Fault::StackUnderflow);
    }
    let top = peek(store, size, t, cells - 1);
    let Some(a) = checked(top, sizes::SHARED * size) else {
        return Err(Fault::BadAddress);
    };
    let v = read(store, a);
    poke(store, size, t, cells - 1, v);
    Ok(c)
}

// The instruction `store`: the address goes, the value below it stays.
pub fn store_cell(store: &mut [i32], size: usize, t: usize, c: Context) -> Result<Context, Fault>
    requires { Fit size t c (length store.old) }
    ensures { Tries size stores store.old t c store.new result }
{
    let cells = c.cells;
    if cells < 2 {
        return Err(Fault::StackUnderflow);
    }
    let top = peek(store, size, t, cells - 1);
    let Some(a) = checked(top, sizes::SHARED * size) else {
        return Err(Fault::BadAddress);
    };
    let v = peek(store, size, t, cells - 2);
    write(store, a, v);
    Ok(Context {
        cells: cells - 1,
        ..c
    })
}

// The instruction `new`: so many cells, as top asks, or 0 where fewer are left.
pub fn fresh(store: &mut [i32], size: usize, r: Registers) -> Result<Registers, Fault>
    requires { Able size r (length store.old) }
    ensures { Does size new store.old r store.new (settled_of r result) }
{
    let cells = r.cells;
    if cells < 1 {
        return Err(Fault::StackUnderflow);
    }
    let top = peek(store, size, r.thread, cells - 1);
    if top < 1 {
        return Err(Fault::BadCount);
    }
    let free = r.free;
    let end = free + top as usize;
    if sizes::SHARED * size < end {
        poke(store, size, r.thread, cells - 1, 0);
        return Ok(r.advance());
    }
    poke(store, size, r.thread, cells - 1, free as i32);
    Ok(r.advance().with_free(end))
}
