// Queues: the first waiter is taken out, and one or all are sent to the ready tail.
ghost use Rattle.std.specs.Prelude.{◌<◌};
ghost use Rattle.machine.specs.Tables.{ready, sent, tables_of, wake_all, wake_first};
ghost use Rattle.tables.specs.Good.{Dequeued, Good, Left};
ghost use Rattle.tables.specs.Idle.{Behind};

use crate::order::{find, send};
use crate::places::{READY, RUNNING};
use machine::Thread;

// Takes the first waiter out of a queue: it is where a running thread is, in no queue, and who takes it runs it or
// sends it on. The search starts behind the first `skip` of the line.
pub fn dequeue(tables: &mut [usize], size: usize, from: usize, skip: usize) -> Option<Thread>
    requires good { Good size tables.old }
    requires behind { Behind (tables_of size tables.old) from skip }
    ensures { Dequeued size tables.old from result tables.new }
{
    let t = find(tables, size, from, skip)?;
    send(tables, size, t, RUNNING);
    Some(t)
}

// Sends a thread to the ready tail.
pub fn make_ready(tables: &mut [usize], size: usize, t: Thread)
    requires good { Good size tables.old }
    requires t_lt_size { t.0 < size }
    ensures { Left size tables.new (sent (tables_of size tables.old) t.0 ready) }
{
    send(tables, size, t, READY);
}

// Sends the first waiter of a queue, if any, to the ready tail. With nobody waiting nothing is remembered.
pub fn wake_first(tables: &mut [usize], size: usize, from: usize)
    requires { Good size tables.old }
    ensures { Left size tables.new (wake_first (tables_of size tables.old) from) }
{
    let Some(t) = dequeue(tables, size, from, 0) else {
        return;
    };
    make_ready(tables, size, t);
}

// Sends all of a queue to the ready tail, in their order.
pub fn wake_all(tables: &mut [usize], size: usize, from: usize)
    requires good { Good size tables.old }
    requires lt_from { 3 < from }
    ensures { Left size tables.new (wake_all (tables_of size tables.old) from) }
{
    while let Some(t) = dequeue(tables, size, from, 0) {
        make_ready(tables, size, t);
    }
}
