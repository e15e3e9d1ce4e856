// The start of a machine: what setting up leaves in the store, the tables and the values. Inner: set-up calls it on
// memory of the right sizes.
#![tactic(auto)]

ghost use Rattle.std.specs.Prelude.{◌≡◌, length};
ghost use Rattle.machine.specs.State.{start_tables};
ghost use Rattle.machine.specs.Tables.{slice_of};
ghost use Rattle.setup.specs.Start.{Lent, Roomy, Started};

use machine::{Registers, sizes, states};

fn start_tables(tables: &mut [usize], size: usize)
    requires { Roomy size (length tables.old) }
    ensures { tables.new ≡ slice_of (start_tables size) }
{
    for (i, number) in tables.iter_mut().enumerate() {
        *number = tables::start_at(size, i);
    }
}

// Sets up a machine whose card asks for `cells` global cells.
pub fn start(
    store: &mut [i32],
    tables: &mut [usize],
    values: &mut [i32],
    size: usize,
    cells: usize,
) -> Registers
    requires { Lent size (length store.old) (length tables.old) (length values.old) }
    ensures { Started size cells store.new tables.new values.new result }
{
    store.fill(0);
    cells::poke(store, size, 0, 0, 0);
    cells::poke(store, size, 0, 1, -1);
    cells::poke(store, size, 0, 2, -1);
    start_tables(tables, size);
    values.fill(0);
    Registers {
        state: states::RUNNING,
        fault: 0,
        thread: 0,
        pc: 0,
        cells: sizes::NEW_CELLS,
        fp: sizes::NEW_FP,
        free: cells,
        threads: 1,
        mutexes: 0,
        conditions: 0,
        semaphores: 0,
    }
}
