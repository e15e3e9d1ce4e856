// The instructions on the running thread's own stack and shared cells, with the numbers of their faults. The engine's
// loop has them in a match of its own (`local::execute`): with one function for both, the compiler would make it a call
// in that loop.
ghost use Rattle.std.specs.Prelude.{length};
ghost use Rattle.cells.specs.Attempts.{Fit, TriesIn};
ghost use Rattle.dispatch.specs.Contract.{Own};
ghost use Rattle.local.specs.Contract.{Permitted};
ghost use Rattle.machine.specs.Instructions.{instruction_of};

use local::natural;
use machine::{Context, Fault};
use opcodes::opcode;

// Tries the instruction in context `c`, with PC past it.

pub fn attempt(
    store: &mut [i32],
    size: usize,
    t: usize,
    n: usize,
    c: Context,
    opcode: u32,
    operand: i32,
) -> Result<Context, Fault>
    requires fit { Fit size t c (length store.old) }
    requires permitted { Permitted n opcode operand }
    requires own { Own opcode }
    ensures { TriesIn size n (instruction_of opcode operand) store.old t c store.new result }
{
    match opcode {
        opcode::LOADC => stack::loadc(store, size, t, c, operand),
        opcode::LOAD => shared::load(store, size, t, c),
        opcode::STORE => shared::store_cell(store, size, t, c),
        opcode::LOADR => stack::loadr(store, size, t, c, operand),
        opcode::STORER => stack::storer(store, size, t, c, operand),
        opcode::POP => stack::pop(c),
        opcode::DUP => stack::dup(store, size, t, c),
        opcode::ADD => operators::binary(store, size, t, c, opcode::ADD),
        opcode::SUB => operators::binary(store, size, t, c, opcode::SUB),
        opcode::MUL => operators::binary(store, size, t, c, opcode::MUL),
        opcode::DIV => operators::binary(store, size, t, c, opcode::DIV),
        opcode::MOD => operators::binary(store, size, t, c, opcode::MOD),
        opcode::NEG => operators::neg(store, size, t, c),
        opcode::EQ => operators::compare(store, size, t, c, opcode::EQ),
        opcode::NEQ => operators::compare(store, size, t, c, opcode::NEQ),
        opcode::LESS => operators::compare(store, size, t, c, opcode::LESS),
        opcode::LEQ => operators::compare(store, size, t, c, opcode::LEQ),
        opcode::NOT => operators::not(store, size, t, c),
        opcode::JUMP => control::jump(c, natural(operand)),
        opcode::JUMPZ => control::jumpz(store, size, t, c, natural(operand), n),
        opcode::MARK => stack::mark(store, size, t, c),
        // Call is all that is left.
        _ => control::call(store, size, t, c, n),
    }
}
