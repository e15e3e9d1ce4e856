// Waking: the threads that wait for a condition are sent to the ready tail, where each goes on with its own lock.
ghost use Rattle.std.specs.Prelude.{length};
ghost use Rattle.machine.specs.Instructions.{broadcast, signal};
ghost use Rattle.cells.specs.Contract.{Able, Acts, Made, settled_of};
ghost use Rattle.tables.specs.Good.{Good};

use cells::named;
use machine::{Condition, Fault, Registers};

// Two of one shape: one for both, with what it does to the tables as a closure over lent tables, would be longer.
pub fn signal(
    store: &[i32],
    tables: &mut [usize],
    size: usize,
    r: Registers,
) -> Result<Registers, Fault>
    requires able { Able size r (length store.now) }
    requires good { Good size tables.old }
    requires made { Made size r }
    ensures { Acts size signal store.now tables.old r store.now tables.new (settled_of r result) }
{
    let c = named::<Condition>(store, size, r, 1)?;
    tables::wake_first(tables, size, tables::at_condition(size, c));
    Ok(cells::popped(r))
}

pub fn broadcast(
    store: &[i32],
    tables: &mut [usize],
    size: usize,
    r: Registers,
) -> Result<Registers, Fault>
    requires able { Able size r (length store.now) }
    requires good { Good size tables.old }
    requires made { Made size r }
    ensures { Acts size broadcast store.now tables.old r store.now tables.new (settled_of r result) }
{
    let c = named::<Condition>(store, size, r, 1)?;
    tables::wake_all(tables, size, tables::at_condition(size, c));
    Ok(cells::popped(r))
}
