// Mutexes: who owns one, and who waits for it.
ghost use Rattle.std.specs.Prelude.{◌*◌, ◌<◌, length};
ghost use Rattle.machine.specs.Instructions.{lock, newmutex, unlock};
ghost use Rattle.machine.specs.Tables.{tables_of, unlocked};
ghost use Rattle.cells.specs.Contract.{Able, Acts, Does, Made, settled_of};
ghost use Rattle.tables.specs.Good.{Good, Left};
ghost use Rattle.tables.specs.Idle.{Idle, IdleAfter};

use crate::numbers::push_number;
use cells::named;
use machine::{Fault, Mutex, Registers, Thread, sizes};

pub fn newmutex(store: &mut [i32], size: usize, r: Registers) -> Result<Registers, Fault>
    requires { Able size r (length store.old) }
    ensures { Does size newmutex store.old r store.new (settled_of r result) }
{
    if sizes::LAST_CELL < r.cells {
        return Err(Fault::StackOverflow);
    }
    let made = r.mutexes;
    let q = push_number(store, size, r, made);
    if made < sizes::MUTEXES * size {
        Ok(q.with_made(r.threads, made + 1, r.conditions))
    } else {
        Ok(q)
    }
}

// A free mutex is taken; else the thread waits for it.
pub fn lock(
    store: &[i32],
    tables: &mut [usize],
    size: usize,
    r: Registers,
    skip: usize,
) -> Result<Registers, Fault>
    requires able { Able size r (length store.now) }
    requires good { Good size tables.old }
    requires made { Made size r }
    requires idle_after { IdleAfter (tables_of size tables.old) r.thread skip }
    ensures { Acts size lock store.now tables.old r store.now tables.new (settled_of r result) }
{
    let m = named::<Mutex>(store, size, r, 1)?;
    let after = cells::popped(r);
    let None = tables::owner(tables, size, m) else {
        return Ok(threads::block(tables, size, after, tables::at_mutex(m), skip));
    };
    tables::own(tables, size, m, Some(Thread(r.thread)));
    Ok(after)
}

// Only the owner unlocks.
pub fn unlock(
    store: &[i32],
    tables: &mut [usize],
    size: usize,
    r: Registers,
    skip: usize,
) -> Result<Registers, Fault>
    requires able { Able size r (length store.now) }
    requires good { Good size tables.old }
    requires made { Made size r }
    requires idle { Idle (tables_of size tables.old) skip }
    ensures { Acts size unlock store.now tables.old r store.now
        tables.new (settled_of r result) }
{
    let m = named::<Mutex>(store, size, r, 1)?;
    if !tables::owns(tables, size, Thread(r.thread), m) {
        return Err(Fault::NotOwner);
    }
    unlock_mutex(tables, size, m, skip);
    Ok(cells::popped(r))
}

// The first waiter owns the mutex and is ready; with none, the mutex is free. None of the first `skip` of the line
// waits, as they don't live.
pub fn unlock_mutex(tables: &mut [usize], size: usize, m: Mutex, skip: usize)
    requires good { Good size tables.old }
    requires m_bound { m.0 < 2 * size }
    requires idle { Idle (tables_of size tables.old) skip }
    ensures { Left size tables.new (unlocked size (tables_of size tables.old) m.0) }
{
    let Some(t) = tables::dequeue(tables, size, tables::at_mutex(m), skip) else {
        tables::own(tables, size, m, None);
        return;
    };
    tables::own(tables, size, m, Some(t));
    tables::make_ready(tables, size, t);
}
