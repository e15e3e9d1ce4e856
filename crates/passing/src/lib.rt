// Passing a semaphore: a count is lowered, and the thread waits where that is negative; it is raised, and the first
// who waits goes on. Inner: up and down call these functions with the number of a semaphore that was made.
#![tactic(auto, unfolding(machine::specs::Execution::fits))]

ghost use Rattle.std.specs.Prelude.{cond, ◌≡◌, ◌*◌, ◌<◌, ◌≤◌, pos, length};
ghost use Rattle.std.specs.Int.Signed.{le_z};
ghost use Rattle.cells.specs.Contract.{settled_of};
ghost use Rattle.machine.specs.Execution.{lowering, raising};
ghost use Rattle.machine.specs.Tables.{at_semaphore, tables_of, wake_first};
ghost use Rattle.tables.specs.Good.{Good, Left};
ghost use Rattle.passing.specs.Contract.{Comes, Low};

use machine::{Fault, Registers, Semaphore};

// The first who waits is ready, where the count, which was raised, is not positive.
fn wake_unless_positive(tables: &mut [usize], size: usize, k: Semaphore, count: i32)
    requires good { Good size tables.old }
    requires k_lt_size { k.0 < size }
    ensures { Left size tables.new (cond (le_z count (pos 0))
        (wake_first (tables_of size tables.old) (at_semaphore size k.0))
        (tables_of size tables.old)) }
{
    if 0 < count {
        return;
    }
    tables::wake_first(tables, size, tables::at_semaphore(size, k));
}

// The semaphore's part of up.
pub fn raise(
    tables: &mut [usize],
    values: &mut [i32],
    size: usize,
    r: Registers,
    k: Semaphore,
) -> Result<Registers, Fault>
    requires good { Good size tables.old }
    requires values_len { length values.old ≡ 2 * size }
    requires k_lt_size { k.0 < size }
    requires pc_bound { r.pc < 4096 }
    requires le_cells { 1 ≤ r.cells }
    ensures { Comes size (λ n s. raising size n s k.0) tables.old values.old r
        tables.new values.new (settled_of r result) }
{
    let Some(raised) = tables::count(values, size, k).checked_add(1) else {
        return Err(Fault::Arithmetic);
    };
    tables::set_count(values, size, k, raised);
    wake_unless_positive(tables, size, k, raised);
    Ok(cells::popped(r))
}

// The semaphore's part of down.
pub fn lower(
    tables: &mut [usize],
    values: &mut [i32],
    size: usize,
    r: Registers,
    k: Semaphore,
) -> Registers
    requires good { Good size tables.old }
    requires values_len { length values.old ≡ 2 * size }
    requires k_lt_size { k.0 < size }
    requires low { Low size values.old k.0 }
    requires thread_lt_size { r.thread < size }
    requires pc_bound { r.pc < 4096 }
    requires le_cells { 1 ≤ r.cells }
    ensures { Comes size (λ n s. lowering size n s k.0) tables.old values.old r
        tables.new values.new result }
{
    let lowered = tables::count(values, size, k) - 1;
    tables::set_count(values, size, k, lowered);
    let after = cells::popped(r);
    if lowered < 0 {
        return threads::block(tables, size, after, tables::at_semaphore(size, k), 0);
    }
    after
}
