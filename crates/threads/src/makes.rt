// A new thread.
ghost use Rattle.std.specs.Prelude.{◌≡◌, length};
ghost use Rattle.machine.specs.Instructions.{create};
ghost use Rattle.machine.specs.State.{new_cells, new_fp, new_stack};
ghost use Rattle.machine.specs.Tables.{ready, saved, sent, tables_of};
ghost use Rattle.cells.specs.Contract.{Able, ActsIn, CellOf, settled_of};
ghost use Rattle.tables.specs.Good.{Good, Left};

use cells::Opening;
use machine::{Context, Fault, Registers, Thread, sizes};

// The stack of a new thread: its argument, and no frame to return to.
fn new_stack(store: &mut [i32], size: usize, t: Thread, v: i32)
    requires { CellOf size t.0 2 (length store.old) }
    ensures { store.new ≡ new_stack size store.old t.0 v }
{
    cells::poke(store, size, t.0, 0, v);
    cells::poke(store, size, t.0, 1, -1);
    cells::poke(store, size, t.0, 2, -1);
}

// Makes the next thread: its stack, its saved registers, and its place at the ready tail.
fn make_thread(
    store: &mut [i32],
    tables: &mut [usize],
    size: usize,
    made: usize,
    entry: usize,
    v: i32,
) -> Thread
    requires cell_of { CellOf size made 2 (length store.old) }
    requires good { Good size tables.old }
    ensures result_value { result.0 ≡ made }
    ensures store_after { store.new ≡ new_stack size store.old made v }
    ensures left { Left size tables.new
        (sent (saved (tables_of size tables.old) made entry new_cells new_fp) made ready) }
{
    let t = Thread(made);
    new_stack(store, size, t, v);
    let context = Context {
        pc: entry,
        cells: sizes::NEW_CELLS,
        fp: sizes::NEW_FP,
    };
    tables::save(tables, size, t, context);
    tables::make_ready(tables, size, t);
    t
}

// The entry is tested before the room.
pub fn create(
    store: &mut [i32],
    tables: &mut [usize],
    size: usize,
    r: Registers,
    n: usize,
) -> Result<Registers, Fault>
    requires able { Able size r (length store.old) }
    requires good { Good size tables.old }
    ensures { ActsIn size n create store.old tables.old r
        store.new tables.new (settled_of r result) }
{
    let cells = r.cells;
    if cells < 2 {
        return Err(Fault::StackUnderflow);
    }
    let below = cells::peek(store, size, r.thread, cells - 2);
    let made = r.threads;
    match cells::opening_for(below, n, made, size) {
        Opening::Wrong => Err(Fault::BadTarget),
        Opening::Full => {
            cells::poke(store, size, r.thread, cells - 2, -1);
            Ok(r.advance().with_cells(cells - 1))
        }
        Opening::Room(entry) => {
            let top = cells::peek(store, size, r.thread, cells - 1);
            let t = make_thread(store, tables, size, made, entry, top);
            cells::poke(store, size, r.thread, cells - 2, t.0 as i32);
            let after = r.advance().with_cells(cells - 1);
            Ok(after.with_made(made + 1, r.mutexes, r.conditions))
        }
    }
}
