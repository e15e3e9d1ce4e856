// The line: the threads in the order of their arrival, each once. A queue is those of the line that are at one place.
ghost use Rattle.std.specs.Prelude.{◌≡◌, ◌*◌, ◌<◌, ◌≤◌, drop, get_or, length};
ghost use Rattle.machine.specs.Lists.{count};
ghost use Rattle.machine.specs.Tables.{first, queue, sent, tables_of};
ghost use Rattle.tables.specs.Good.{Good, Left, end_moved};
ghost use Rattle.tables.specs.Idle.{Behind, Idle};

use crate::layout;
use crate::threads::{lives, place as place_of};
use machine::Thread;

// Moves the one `t` from `from` on to the end of the slice. It walks back from the end, so that what stands before
// `t` is not read, and needs no bound, since `t` is there: `from` is only in the contract. By hand, since each change
// of turns goes through it: `rposition` with `rotate_left(1)`, tried, takes twice as long where two threads are there.
fn to_end(tables: &mut [usize], from: usize, t: usize)
    requires from_in_bounds { from ≤ length tables.old }
    requires tables_value { count t (drop from tables.old) ≡ 1 }
    ensures { tables.new ≡ end_moved tables.old from t }
{
    let mut i = tables.len() - 1;
    let mut carried = tables[i];
    tables[i] = t;
    while carried != t {
        i -= 1;
        let x = tables[i];
        tables[i] = carried;
        carried = x;
    }
}

// Sends a thread to a place, as the last to arrive there.
pub fn send(tables: &mut [usize], size: usize, t: Thread, place: usize)
    requires good { Good size tables.old }
    requires t_lt_size { t.0 < size }
    ensures { Left size tables.new (sent (tables_of size tables.old) t.0 place) }
{
    let at = t.0;
    tables[at] = place;
    to_end(tables, layout::LINE * size, at);
}

// The thread at `k` in the line.
fn in_line(tables: &[usize], size: usize, k: usize) -> Thread
    requires good { Good size tables.now }
    requires k_lt_size { k < size }
    ensures entry { result.0 ≡ get_or (tables_of size tables.now).line k 0 }
    ensures thread { result.0 < size }
{
    Thread(tables[layout::LINE * size + k])
}

// How many at the front of the line don't live, if `skip` of them are known not to: where a search may start.
pub fn first_living(tables: &[usize], size: usize, skip: usize) -> usize
    requires good { Good size tables.now }
    requires idle { Idle (tables_of size tables.now) skip }
    ensures { Idle (tables_of size tables.now) result }
{
    (skip..size)
        .find(|&k| lives(tables, size, in_line(tables, size, k)))
        .unwrap_or(size)
}

// The first of the line that is at a place. None of the first `skip` is there, so they are not looked at.
pub fn find(tables: &[usize], size: usize, place: usize, skip: usize) -> Option<Thread>
    requires good { Good size tables.now }
    requires behind { Behind (tables_of size tables.now) place skip }
    ensures { result ≡ first (tables_of size tables.now) place }
{
    for k in skip..size {
        let t = in_line(tables, size, k);
        if place_of(tables, size, t) == place {
            return Some(t);
        }
    }
    None
}

// How many wait at a place.
pub fn waiting(tables: &[usize], size: usize, place: usize) -> usize
    requires { Good size tables.now }
    ensures { result ≡ length (queue (tables_of size tables.now) place) }
{
    (0..size)
        .filter(|&k| place_of(tables, size, in_line(tables, size, k)) == place)
        .count()
}
