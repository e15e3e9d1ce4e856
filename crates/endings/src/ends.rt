// A thread's end and its result, and who waits for them.
ghost use Rattle.std.specs.Prelude.{◌*◌, ◌<◌, ◌≡◌, length};
ghost use Rattle.machine.specs.Instructions.{exit, finalize, join};
ghost use Rattle.machine.specs.Tables.{at_end, tables_of};
ghost use Rattle.cells.specs.Contract.{Able, Changes, DoesAnywhere, Made, settled_of};
ghost use Rattle.tables.specs.Good.{Good};
ghost use Rattle.endings.specs.Contract.{Ends, Receivers};

use crate::delivery::deliver;
use cells::named;
use machine::{Fault, Registers, Thread};
use threads::{block, next};

// The running thread ends with a result, which those who wait for it get, and the next one runs.
pub fn finish(
    store: &mut [i32],
    tables: &mut [usize],
    values: &mut [i32],
    size: usize,
    r: Registers,
    v: i32,
) -> Registers
    requires good { Good size tables.old }
    requires store_len { length store.old ≡ 256 * size }
    requires values_len { length values.old ≡ 2 * size }
    requires thread_lt_size { r.thread < size }
    requires receivers { Receivers size (at_end size r.thread) (tables_of size tables.old) }
    ensures { Ends size v store.old tables.old values.old r
        store.new tables.new values.new result }
{
    let t = Thread(r.thread);
    tables::set_result(values, t, v);
    deliver(store, tables, size, tables::at_end(size, t), v);
    tables::send(tables, size, t, tables::ENDED);
    next(tables, size, r.with_state(r.state, size), 0)
}

// A thread that owns a mutex can't end: nobody could unlock it then. That is asked before anybody gets anything.
pub fn exit(
    store: &mut [i32],
    tables: &mut [usize],
    values: &mut [i32],
    size: usize,
    r: Registers,
) -> Result<Registers, Fault>
    requires able { Able size r (length store.old) }
    requires good { Good size tables.old }
    requires values_len { length values.old ≡ 2 * size }
    requires receivers { Receivers size (at_end size r.thread) (tables_of size tables.old) }
    ensures { Changes size exit store.old tables.old values.old r
        store.new tables.new values.new (settled_of r result) }
{
    let cells = r.cells;
    if cells < 1 {
        return Err(Fault::StackUnderflow);
    }
    if tables::owns_any(tables, size, Thread(r.thread)) {
        return Err(Fault::StillOwner);
    }
    let top = cells::peek(store, size, r.thread, cells - 1);
    Ok(finish(store, tables, values, size, r.advance(), top))
}

// The result of a thread that has ended goes on top at once. Of any other it comes with that thread's end.
pub fn join(
    store: &mut [i32],
    tables: &mut [usize],
    values: &[i32],
    size: usize,
    r: Registers,
) -> Result<Registers, Fault>
    requires able { Able size r (length store.old) }
    requires good { Good size tables.old }
    requires values_len { length values.now ≡ 2 * size }
    requires made { Made size r }
    ensures { Changes size join store.old tables.old values.now r
        store.new tables.new values.now (settled_of r result) }
{
    let t = named::<Thread>(store, size, r, 1)?;
    if !tables::has_ended(tables, size, t) {
        return Ok(block(tables, size, r.advance(), tables::at_end(size, t), 0));
    }
    let v = tables::result(values, t);
    let cells = r.cells;
    cells::poke(store, size, r.thread, cells - 1, v);
    Ok(r.advance())
}

// After a join the result is on top already: nothing is left to do.
pub fn finalize(r: Registers) -> Result<Registers, Fault>
    requires { r.pc < 4096 }
    ensures { DoesAnywhere finalize r (settled_of r result) }
{
    if r.cells < 1 {
        return Err(Fault::StackUnderflow);
    }
    Ok(r.advance())
}
