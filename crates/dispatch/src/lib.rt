// The dispatcher: the instruction of each opcode but those that the engine takes beside its loop, yield, lock and
// unlock. Inner: the engine calls it on a running machine.
#![tactic(auto)]

mod own;

ghost use Rattle.std.specs.Prelude.{◌≤◌, length};
ghost use Rattle.opcodes.specs.Page.{last_opcode};
ghost use Rattle.cells.specs.Contract.{ChangesIn, settled_of};
ghost use Rattle.dispatch.specs.Contract.{Others, Working};
ghost use Rattle.local.specs.Contract.{Permitted};
ghost use Rattle.machine.specs.Instructions.{instruction_of};

use crate::own::attempt;
use cells::{past, settled};
use local::natural;
use machine::{Fault, Registers};
use opcodes::opcode;

// Carries out the instruction. A fault leaves all but the registers as it was, and `execute` says what it does to them.
#[tactic(auto, unfolding(machine::specs::Instructions::instruction_of))]
fn carry_out(
    store: &mut [i32],
    tables: &mut [usize],
    values: &mut [i32],
    size: usize,
    n: usize,
    r: Registers,
    opcode: u32,
    operand: i32,
) -> Result<Registers, Fault>
    requires working { Working size r (length store.old) tables.old values.old }
    requires permitted { Permitted n opcode operand }
    requires others { Others opcode }
    requires opcode_le_last_opcode { opcode ≤ last_opcode }
    ensures { ChangesIn size n (instruction_of opcode operand) store.old tables.old
        values.old r store.new tables.new values.new (settled_of r result) }
{
    match opcode {
        opcode::HALT => Ok(control::halt(r)),
        opcode::ALLOC => stack::alloc(store, size, r, natural(operand)),
        opcode::RETURN => endings::return_from(store, tables, values, size, r, n),
        opcode::NEW => shared::fresh(store, size, r),
        opcode::CREATE => threads::create(store, tables, size, r, n),
        opcode::EXIT => endings::exit(store, tables, values, size, r),
        opcode::JOIN => endings::join(store, tables, values, size, r),
        opcode::FINALIZE => endings::finalize(r),
        opcode::NEWMUTEX => locks::newmutex(store, size, r),
        opcode::NEWCOND => conditions::newcond(store, size, r),
        opcode::WAIT => conditions::wait(store, tables, size, r),
        opcode::SIGNAL => conditions::signal(store, tables, size, r),
        opcode::BROADCAST => conditions::broadcast(store, tables, size, r),
        opcode::NEWSEMA => semaphores::newsema(store, values, size, r),
        opcode::UP => semaphores::up(store, tables, values, size, r),
        opcode::DOWN => semaphores::down(store, tables, values, size, r),
        // From loadc to call.
        _ => {
            let c = attempt(store, size, r.thread, n, past(r), opcode, operand)?;
            Ok(r.with_context(c))
        }
    }
}

// A fault stops the machine.
pub fn execute(
    store: &mut [i32],
    tables: &mut [usize],
    values: &mut [i32],
    size: usize,
    n: usize,
    r: Registers,
    opcode: u32,
    operand: i32,
) -> Registers
    requires working { Working size r (length store.old) tables.old values.old }
    requires permitted { Permitted n opcode operand }
    requires others { Others opcode }
    requires opcode_le_last_opcode { opcode ≤ last_opcode }
    ensures { ChangesIn size n (instruction_of opcode operand) store.old tables.old
        values.old r store.new tables.new values.new result }
{
    let after = carry_out(store, tables, values, size, n, r, opcode, operand);
    settled(r, after)
}
