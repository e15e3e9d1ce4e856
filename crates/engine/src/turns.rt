// Turns: the threads run one after another, each until it yields or has to wait for a mutex. The instructions that
// change turns most often, yield, lock and unlock, are taken here, beside the loop of a thread's own: of the registers
// they change the running thread and its context alone, which are therefore all that is carried from turn to turn.
ghost use Rattle.std.specs.Prelude.{◌≤◌, pos, length, ◌≡◌};
ghost use Rattle.cells.specs.Contract.{Able, Acts, Made, Tells};
ghost use Rattle.dispatch.specs.Contract.{Turning};
ghost use Rattle.engine.specs.Contract.{Seated, Turned};
ghost use Rattle.machine.specs.Instructions.{instruction_of};
ghost use Rattle.machine.specs.Registers.{running};
ghost use Rattle.machine.specs.Tables.{tables_of};
ghost use Rattle.tables.specs.Good.{Good};
ghost use Rattle.tables.specs.Idle.{Idle, IdleAfter};

use crate::cards::Card;
use crate::reached::Reached;
use crate::stretches::stretch;
use machine::{Registers, Thread, states};
use opcodes::opcode;

fn is_turn(opcode: u32) -> bool
    ensures { Tells (Turning opcode) result }
{
    matches!(opcode, opcode::YIELD | opcode::LOCK | opcode::UNLOCK)
}

// Carries out yield, lock or unlock. The first `skip` of the line don't live, so a search starts behind them.
fn turn(
    store: &[i32],
    tables: &mut [usize],
    size: usize,
    r: Registers,
    opcode: u32,
    skip: usize,
) -> Registers
    requires able { Able size r (length store.now) }
    requires good { Good size tables.old }
    requires made { Made size r }
    requires turning { Turning opcode }
    requires idle { Idle (tables_of size tables.old) skip }
    requires idle_after { IdleAfter (tables_of size tables.old) r.thread skip }
    ensures { Acts size (instruction_of opcode (pos 0)) store.now tables.old r
        store.now tables.new result }
{
    match opcode {
        opcode::YIELD => threads::yield_turn(tables, size, r, skip),
        opcode::LOCK => cells::settled(r, locks::lock(store, tables, size, r, skip)),
        _ => cells::settled(r, locks::unlock(store, tables, size, r, skip)),
    }
}

// Runs a machine for at most `m` instructions, until it stops or an instruction comes that is taken elsewhere.
pub fn turns(
    card: &Card,
    store: &mut [i32],
    tables: &mut [usize],
    size: usize,
    r: Registers,
    m: usize,
) -> Reached<Registers>
    requires size_bound { size ≤ 32 }
    requires seated { Seated size store.old tables.old r }
    requires runs { r.state ≡ running }
    ensures { Turned size card.now.code.now m store.old tables.old r
        store.new tables.new result }
{
    let mut thread = r.thread;
    let first = stretch(card, store, size, thread, r.pc, r.cells, r.fp, m);
    let mut context = first.at;
    let mut left = first.left;
    // So many at the front of the line don't live: a search need not look at them.
    let mut skip = 0;
    // No `for`: a stretch takes many from what is left.
    while 0 < left {
        let Some(i) = card.at(context.pc) else {
            break;
        };
        if !is_turn(i.opcode) {
            break;
        }
        let here = r.switch(Thread(thread), context.pc, context.cells, context.fp);
        skip = tables::first_living(tables, size, skip);
        let after = turn(store, tables, size, here, i.opcode, skip);
        if after.state == states::FAULTED {
            return Reached { at: after, left };
        }
        left -= 1;
        if after.state != states::RUNNING {
            return Reached { at: after, left };
        }
        thread = after.thread;
        let more = stretch(
            card,
            store,
            size,
            thread,
            after.pc,
            after.cells,
            after.fp,
            left,
        );
        context = more.at;
        left = more.left;
    }
    Reached {
        at: r.switch(Thread(thread), context.pc, context.cells, context.fp),
        left,
    }
}
