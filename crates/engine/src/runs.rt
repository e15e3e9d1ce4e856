// A run of many instructions: turns, and between them the instructions that are taken elsewhere.
ghost use Rattle.std.specs.Prelude.{◌≤◌, ◌<◌, ◌≡◌, length};
ghost use Rattle.card.specs.Code.{instruction_at, words_of};
ghost use Rattle.dispatch.specs.Contract.{Others};
ghost use Rattle.engine.specs.Contract.{Carries, Lasts, Onward};
ghost use Rattle.machine.specs.Calls.{boxed};
ghost use Rattle.machine.specs.Laws.{Sound};
ghost use Rattle.machine.specs.Registers.{running};

use crate::cards::Card;
use crate::progress::Progress;
use crate::reached::Reached;
use crate::turns::turns;
use machine::{Fault, Registers, states};

// Carries out the instruction at PC, which ended the turns, or stops with a fault.
fn carry(
    card: &Card,
    store: &mut [i32],
    tables: &mut [usize],
    values: &mut [i32],
    size: usize,
    r: Registers,
) -> Registers
    requires size_bound { size ≤ 32 }
    requires sound { Sound size (boxed store.old tables.old values.old r) }
    requires runs { r.state ≡ running }
    requires others { r.pc < length (words_of card.now.code.now)
        → Others (instruction_at card.now.code.now r.pc).opcode }
    ensures { Carries size card.now.code.now store.old tables.old values.old r
        store.new tables.new values.new result }
{
    let Some(i) = card.at(r.pc) else {
        return r.stop(Fault::NoInstruction.number());
    };
    let n = card.count();
    dispatch::execute(store, tables, values, size, n, r, i.opcode, i.operand)
}

// Turns, and the instruction that ended them, where one did.
fn onward(
    card: &Card,
    store: &mut [i32],
    tables: &mut [usize],
    values: &mut [i32],
    size: usize,
    r: Registers,
    m: usize,
) -> Reached<Registers>
    requires size_bound { size ≤ 32 }
    requires sound { Sound size (boxed store.old tables.old values.old r) }
    requires runs { r.state ≡ running }
    requires some_left { 1 ≤ m }
    ensures { Onward size card.now.code.now m store.old tables.old values.old r
        store.new tables.new values.new result }
{
    let p = turns(card, store, tables, size, r, m);
    let here = p.at;
    let left = p.left;
    if left == 0 {
        return p;
    }
    if here.state != states::RUNNING {
        return p;
    }
    let after = carry(card, store, tables, values, size, here);
    if after.state == states::FAULTED {
        return Reached { at: after, left };
    }
    Reached {
        at: after,
        left: left - 1,
    }
}

// Runs a machine for at most `m` instructions, until it stops.
pub fn run(
    card: &Card,
    store: &mut [i32],
    tables: &mut [usize],
    values: &mut [i32],
    size: usize,
    r: Registers,
    m: usize,
) -> Progress
    requires size_bound { size ≤ 32 }
    requires sound { Sound size (boxed store.old tables.old values.old r) }
    ensures { Lasts size card.now.code.now store.old tables.old values.old r m
        store.new tables.new values.new result }
{
    let mut registers = r;
    let mut left = m;
    // No `for`: turns take many from what is left.
    while 0 < left {
        if registers.state != states::RUNNING {
            return Progress {
                registers,
                count: m - left,
            };
        }
        let p = onward(card, store, tables, values, size, registers, left);
        registers = p.at;
        left = p.left;
    }
    Progress {
        registers,
        count: m - left,
    }
}
