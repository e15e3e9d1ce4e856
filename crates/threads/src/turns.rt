// Whose turn it is.
ghost use Rattle.std.specs.Prelude.{cond, List, ◌≡◌, ◌<◌, ℤ};
ghost use Rattle.machine.specs.Instructions.{yield};
ghost use Rattle.machine.specs.Registers.{halted, nobody, stuck, with_state};
ghost use Rattle.machine.specs.State.{blocked, left, next};
ghost use Rattle.machine.specs.Tables.{any_live, tables_of};
ghost use Rattle.cells.specs.Contract.{Acts};
ghost use Rattle.tables.specs.Good.{Good};
ghost use Rattle.tables.specs.Idle.{Idle, IdleAfter};
ghost use Rattle.threads.specs.Contract.{Goes};

use machine::{Context, Registers, Thread, states};

// With nobody ready: halted if no thread lives, else stuck.
fn idle(tables: &[usize], size: usize, r: Registers) -> Registers
    requires { Good size tables.now }
    ensures { result ≡ with_state r (cond (any_live size (tables_of size tables.now)) stuck halted) (nobody size) }
{
    if tables::any_live(tables, size) {
        r.with_state(states::STUCK, size)
    } else {
        r.with_state(states::HALTED, size)
    }
}

// The first of the ready queue runs. None of the first `skip` of the line is ready, as they don't live.
pub fn next(tables: &mut [usize], size: usize, r: Registers, skip: usize) -> Registers
    requires good { Good size tables.old }
    requires idle { Idle (tables_of size tables.old) skip }
    ensures { Goes size (next size) tables.old r tables.new result }
{
    let Some(t) = tables::dequeue(tables, size, tables::READY, skip) else {
        return idle(tables, size, r);
    };
    let Context { pc, cells, fp } = tables::saved(tables, size, t);
    r.switch(t, pc, cells, fp)
}

// The running thread goes to a place, its registers saved, and none runs.
pub fn leave(tables: &mut [usize], size: usize, r: Registers, place: usize) -> Registers
    requires good { Good size tables.old }
    requires thread_lt_size { r.thread < size }
    ensures { Goes size (λ s. left size s place) tables.old r tables.new result }
{
    let t = Thread(r.thread);
    let context = Context {
        pc: r.pc,
        cells: r.cells,
        fp: r.fp,
    };
    tables::save(tables, size, t, context);
    tables::send(tables, size, t, place);
    r.with_state(r.state, size)
}

// The running thread waits at a place, and the next one runs.
pub fn block(
    tables: &mut [usize],
    size: usize,
    r: Registers,
    place: usize,
    skip: usize,
) -> Registers
    requires good { Good size tables.old }
    requires thread_lt_size { r.thread < size }
    requires idle_after { IdleAfter (tables_of size tables.old) r.thread skip }
    ensures { Goes size (λ s. blocked size s place) tables.old r tables.new result }
{
    let gone = leave(tables, size, r, place);
    next(tables, size, gone, skip)
}

// The instruction yield, a word that the language keeps.
pub fn yield_turn(tables: &mut [usize], size: usize, r: Registers, skip: usize) -> Registers
    requires good { Good size tables.old }
    requires thread_lt_size { r.thread < size }
    requires pc_bound { r.pc < 4096 }
    requires idle_after { IdleAfter (tables_of size tables.old) r.thread skip }
    ensures { (store : List ℤ) → Acts size yield store tables.old r store tables.new result }
{
    block(tables, size, r.advance(), tables::READY, skip)
}
