// The instructions that a thread mostly runs: they touch its own stack and shared cells, and of the registers only
// its context. Inner: the engine's loop calls `execute`, from one place, so that the compiler puts all of them into
// that loop; none becomes a call there, as alloc would. The dispatcher has them too, and the numbers of their faults.
#![tactic(auto)]

ghost use Rattle.std.specs.Prelude.{nat_abs, length, ◌≡◌};
ghost use Rattle.cells.specs.Attempts.{Fit};
ghost use Rattle.instruction.specs.Word.{opcode_of, operand_of};
ghost use Rattle.local.specs.Contract.{Natural, Permitted, Ventures};

use machine::Context;
use opcodes::opcode;

// An operand that is a number of cells or a jump's target. It is not negative, so the cast is exact; a `try_from` would
// have to be unwrapped.
pub fn natural(k: i32) -> usize
    requires { Natural k }
    ensures { result ≡ nat_abs k }
{
    k as usize
}

// Tries the instruction `w` of a card of `n`, with PC past it: the context after it, or nothing where it is a fault, or
// an instruction that is taken elsewhere.
pub fn execute(
    store: &mut [i32],
    size: usize,
    t: usize,
    n: usize,
    c: Context,
    w: u32,
) -> Option<Context>
    requires fit { Fit size t c (length store.old) }
    requires permitted { Permitted n (opcode_of w) (operand_of w) }
    ensures { Ventures size n w store.old t c store.new result }
{
    let tried = match instruction::opcode(w) {
        opcode::LOADC => stack::loadc(store, size, t, c, instruction::operand(w)),
        opcode::LOAD => shared::load(store, size, t, c),
        opcode::STORE => shared::store_cell(store, size, t, c),
        opcode::LOADR => stack::loadr(store, size, t, c, instruction::operand(w)),
        opcode::STORER => stack::storer(store, size, t, c, instruction::operand(w)),
        opcode::POP => stack::pop(c),
        opcode::DUP => stack::dup(store, size, t, c),
        opcode::ADD => operators::binary(store, size, t, c, opcode::ADD),
        opcode::SUB => operators::binary(store, size, t, c, opcode::SUB),
        opcode::MUL => operators::binary(store, size, t, c, opcode::MUL),
        opcode::DIV => operators::binary(store, size, t, c, opcode::DIV),
        opcode::MOD => operators::binary(store, size, t, c, opcode::MOD),
        opcode::NEG => operators::neg(store, size, t, c),
        opcode::EQ => operators::compare(store, size, t, c, opcode::EQ),
        opcode::NEQ => operators::compare(store, size, t, c, opcode::NEQ),
        opcode::LESS => operators::compare(store, size, t, c, opcode::LESS),
        opcode::LEQ => operators::compare(store, size, t, c, opcode::LEQ),
        opcode::NOT => operators::not(store, size, t, c),
        opcode::JUMP => control::jump(c, natural(instruction::operand(w))),
        opcode::JUMPZ => control::jumpz(store, size, t, c, natural(instruction::operand(w)), n),
        opcode::MARK => stack::mark(store, size, t, c),
        opcode::CALL => control::call(store, size, t, c, n),
        opcode::RETURN => control::back(store, size, t, c, n),
        _ => return None,
    };
    tried.ok()
}
