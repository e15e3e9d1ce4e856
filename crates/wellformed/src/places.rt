// Each thread's place, by what the thread is.
ghost use Rattle.std.specs.Prelude.{◌≡◌, not as negate, ◌*◌, ◌<◌, ◌≤◌, eqb};
ghost use Rattle.machine.specs.Lists.{every};
ghost use Rattle.machine.specs.Tables.{owner_of, tables_of};
ghost use Rattle.machine.specs.WellFormed.{joiner_fits, saved_fits, thread_fits, wait_fits};
ghost use Rattle.cells.specs.Contract.{Made};
ghost use Rattle.tables.specs.Good.{Good};

use machine::{Context, Mutex, Registers, Thread};
use ranges::frame_fits;
use tables::Awaited;

fn saved_fits(tables: &[usize], size: usize, t: usize) -> bool
    requires good { Good size tables.now }
    requires t_lt_size { t < size }
    ensures { result ≡ saved_fits (tables_of size tables.now) t }
{
    let Context { pc, cells, fp } = tables::saved(tables, size, Thread(t));
    frame_fits(pc, cells, fp)
}

fn is_owned(tables: &[usize], size: usize, m: Mutex) -> bool
    requires good { Good size tables.now }
    requires m_bound { m.0 < 2 * size }
    ensures { result ≡ negate (eqb (owner_of (tables_of size tables.now) m.0) size) }
{
    tables::owner(tables, size, m).is_some()
}

// What is waited for is made, a mutex has an owner, and a thread has not ended.
fn wait_fits(r: Registers, tables: &[usize], size: usize, place: usize) -> bool
    requires good { Good size tables.now }
    requires made { Made size r }
    requires le_place { 4 ≤ place }
    ensures { result ≡ wait_fits size r (tables_of size tables.now) place }
{
    match tables::awaited_at(size, place) {
        Awaited::Mutex(m) => m.0 < r.mutexes && is_owned(tables, size, m),
        Awaited::Condition(c) => c.0 < r.conditions,
        Awaited::Semaphore(k) => k.0 < r.semaphores,
        Awaited::End(t) => t.0 < r.threads && !tables::has_ended(tables, size, t),
    }
}

// One that waits for another's end has a cell, where the result goes.
fn joiner_fits(tables: &[usize], size: usize, t: usize) -> bool
    requires good { Good size tables.now }
    requires t_lt_size { t < size }
    ensures { result ≡ joiner_fits size (tables_of size tables.now) t }
{
    let place = tables::place(tables, size, Thread(t));
    !tables::awaits_end(size, place) || 0 < tables::saved(tables, size, Thread(t)).cells
}

fn thread_fits(r: Registers, tables: &[usize], size: usize, t: usize) -> bool
    requires good { Good size tables.now }
    requires made { Made size r }
    requires t_lt_size { t < size }
    ensures { result ≡ thread_fits size r (tables_of size tables.now) t }
{
    let place = tables::place(tables, size, Thread(t));
    if r.threads <= t {
        return place == tables::UNMADE;
    }
    if t == r.thread {
        return place == tables::RUNNING;
    }
    if place == tables::ENDED {
        return true;
    }
    saved_fits(tables, size, t)
        && (place == tables::READY
            || tables::FIRST_QUEUE <= place
                && (wait_fits(r, tables, size, place) && joiner_fits(tables, size, t)))
}

pub fn threads_fit(r: Registers, tables: &[usize], size: usize) -> bool
    requires good { Good size tables.now }
    requires made { Made size r }
    ensures { result ≡ every size (thread_fits size r (tables_of size tables.now)) }
{
    (0..size).all(|t| thread_fits(r, tables, size, t))
}
