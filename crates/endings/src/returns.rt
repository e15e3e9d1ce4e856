// Return, from a frame or from a thread's first function, where the thread ends.
ghost use Rattle.std.specs.Prelude.{◌*◌, ◌≡◌, length};
ghost use Rattle.machine.specs.Instructions.{return};
ghost use Rattle.machine.specs.Tables.{at_end, tables_of};
ghost use Rattle.cells.specs.Attempts.{past_of};
ghost use Rattle.cells.specs.Contract.{Able, ChangesIn, Tells, settled_of};
ghost use Rattle.control.specs.Contract.{FirstFrame};
ghost use Rattle.tables.specs.Good.{Good};
ghost use Rattle.endings.specs.Contract.{Receivers};

use crate::ends::finish;
use machine::{Fault, Registers, Thread};

// Whether the running thread is in its first frame, from which there is no way back to a caller.
fn in_first_frame(store: &[i32], size: usize, r: Registers) -> bool
    requires { Able size r (length store.now) }
    ensures { Tells (FirstFrame size store.now r.thread (past_of r)) result }
{
    let fp = r.fp;
    if r.cells <= fp {
        return false;
    }
    cells::peek(store, size, r.thread, fp - 1) == -1
}

pub fn return_from(
    store: &mut [i32],
    tables: &mut [usize],
    values: &mut [i32],
    size: usize,
    r: Registers,
    n: usize,
) -> Result<Registers, Fault>
    requires able { Able size r (length store.old) }
    requires good { Good size tables.old }
    requires values_len { length values.old ≡ 2 * size }
    requires receivers { Receivers size (at_end size r.thread) (tables_of size tables.old) }
    ensures { ChangesIn size n return store.old tables.old values.old r
        store.new tables.new values.new (settled_of r result) }
{
    if in_first_frame(store, size, r) {
        if tables::owns_any(tables, size, Thread(r.thread)) {
            return Err(Fault::StillOwner);
        }
        let v = cells::peek(store, size, r.thread, r.fp - 2);
        return Ok(finish(store, tables, values, size, r.advance(), v));
    }
    let c = control::back(store, size, r.thread, cells::past(r), n)?;
    Ok(r.with_context(c))
}
