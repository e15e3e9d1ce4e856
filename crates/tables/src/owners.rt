// The owners of the mutexes. A mutex that nobody owns has the box's number of threads in the tables.
ghost use Rattle.std.specs.Prelude.{◌≡◌, ◌*◌, ◌<◌, eqb};
ghost use Rattle.machine.specs.Tables.{owned, owner_of, owns_any, tables_of};
ghost use Rattle.tables.specs.Good.{Good, Left};
ghost use Rattle.tables.specs.Owners.{number_of, owner_at};

use crate::layout;
use machine::{Mutex, Thread, sizes};

// Any number but that of nobody counts as a thread's: the test of a well-formed state asks whether that thread was
// made.
fn owner_at(size: usize, number: usize) -> Option<Thread>
    ensures { result ≡ owner_at size number }
{
    (number != size).then_some(Thread(number))
}

fn number_of(size: usize, owner: Option<Thread>) -> usize
    ensures { result ≡ number_of size owner }
{
    owner.map_or(size, |t| t.0)
}

pub fn owner(tables: &[usize], size: usize, m: Mutex) -> Option<Thread>
    requires good { Good size tables.now }
    requires m_bound { m.0 < 2 * size }
    ensures { result ≡ owner_at size (owner_of (tables_of size tables.now) m.0) }
{
    let at = m.0;
    owner_at(size, tables[layout::OWNERS * size + at])
}

// Gives a mutex an owner, or leaves it without one.
pub fn own(tables: &mut [usize], size: usize, m: Mutex, owner: Option<Thread>)
    requires good { Good size tables.old }
    requires m_bound { m.0 < 2 * size }
    ensures { Left size
        tables.new (owned (tables_of size tables.old) m.0 (number_of size owner)) }
{
    let at = m.0;
    tables[layout::OWNERS * size + at] = number_of(size, owner);
}

pub fn owns(tables: &[usize], size: usize, t: Thread, m: Mutex) -> bool
    requires good { Good size tables.now }
    requires t_lt_size { t.0 < size }
    requires m_bound { m.0 < 2 * size }
    ensures { result ≡ eqb (owner_of (tables_of size tables.now) m.0) t.0 }
{
    owner(tables, size, m) == Some(t)
}

// Whether a thread owns a mutex. All are looked at: those not made yet have no owner.
pub fn owns_any(tables: &[usize], size: usize, t: Thread) -> bool
    requires good { Good size tables.now }
    requires t_lt_size { t.0 < size }
    ensures { result ≡ owns_any size (tables_of size tables.now) t.0 }
{
    (0..sizes::MUTEXES * size).any(|m| owns(tables, size, t, Mutex(m)))
}
