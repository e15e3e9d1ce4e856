// Making a condition, and waiting for one.
ghost use Rattle.std.specs.Prelude.{length};
ghost use Rattle.machine.specs.Instructions.{newcond, wait};
ghost use Rattle.cells.specs.Contract.{Able, Acts, Does, Made, settled_of};
ghost use Rattle.tables.specs.Good.{Good};

use cells::named;
use locks::{push_number, unlock_mutex};
use machine::{Condition, Fault, Mutex, Registers, Thread, sizes};

pub fn newcond(store: &mut [i32], size: usize, r: Registers) -> Result<Registers, Fault>
    requires { Able size r (length store.old) }
    ensures { Does size newcond store.old r store.new (settled_of r result) }
{
    if sizes::LAST_CELL < r.cells {
        return Err(Fault::StackOverflow);
    }
    let made = r.conditions;
    let q = push_number(store, size, r, made);
    if made < sizes::CONDITIONS * size {
        Ok(q.with_made(r.threads, r.mutexes, made + 1))
    } else {
        Ok(q)
    }
}

// Waits for a condition and unlocks the mutex, which must be the thread's own. Where neither was made, the fault is the
// condition's.
pub fn wait(
    store: &[i32],
    tables: &mut [usize],
    size: usize,
    r: Registers,
) -> Result<Registers, Fault>
    requires able { Able size r (length store.now) }
    requires good { Good size tables.old }
    requires made { Made size r }
    ensures { Acts size wait store.now tables.old r store.now tables.new (settled_of r result) }
{
    if r.cells < 2 {
        return Err(Fault::StackUnderflow);
    }
    let c = named::<Condition>(store, size, r, 1)?;
    let m = named::<Mutex>(store, size, r, 2)?;
    if !tables::owns(tables, size, Thread(r.thread), m) {
        return Err(Fault::NotOwner);
    }
    // When it is woken it goes on after wait, with the mutex on top: at the card's own lock.
    let away = cells::popped(r);
    let gone = threads::leave(tables, size, away, tables::at_condition(size, c));
    unlock_mutex(tables, size, m, 0);
    Ok(threads::next(tables, size, gone, 0))
}
