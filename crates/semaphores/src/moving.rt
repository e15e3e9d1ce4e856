// up and down, by the number of the semaphore on top.
ghost use Rattle.std.specs.Prelude.{◌≡◌, ℕ, ◌*◌, ◌<◌, length};
ghost use Rattle.machine.specs.Instructions.{down, up};
ghost use Rattle.cells.specs.Contract.{Able, Changes, Made, settled_of};
ghost use Rattle.tables.specs.Good.{Good};
ghost use Rattle.passing.specs.Contract.{Low};

use cells::named;
use machine::{Fault, Registers, Semaphore};
use passing::{lower, raise};

pub fn up(
    store: &[i32],
    tables: &mut [usize],
    values: &mut [i32],
    size: usize,
    r: Registers,
) -> Result<Registers, Fault>
    requires able { Able size r (length store.now) }
    requires good { Good size tables.old }
    requires values_len { length values.old ≡ 2 * size }
    requires made { Made size r }
    ensures { Changes size up store.now tables.old values.old r store.now
        tables.new values.new (settled_of r result) }
{
    let k = named::<Semaphore>(store, size, r, 1)?;
    raise(tables, values, size, r, k)
}

pub fn down(
    store: &[i32],
    tables: &mut [usize],
    values: &mut [i32],
    size: usize,
    r: Registers,
) -> Result<Registers, Fault>
    requires able { Able size r (length store.now) }
    requires good { Good size tables.old }
    requires values_len { length values.old ≡ 2 * size }
    requires made { Made size r }
    requires by_index { (k : ℕ) → k < r.semaphores → Low size values.old k }
    ensures { Changes size down store.now tables.old values.old r
        store.now tables.new values.new (settled_of r result) }
{
    let k = named::<Semaphore>(store, size, r, 1)?;
    Ok(lower(tables, values, size, r, k))
}
