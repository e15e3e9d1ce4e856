// Arithmetic on top and the cell below it.
ghost use Rattle.std.specs.Prelude.{◌&&◌, ◌≡◌, ◌≤◌, leb, pos, length};
ghost use Rattle.arithmetic.specs.Arithmetic.{eq_z};
ghost use Rattle.machine.specs.Instructions.{instruction_of};
ghost use Rattle.operators.specs.Operators.{computed};
ghost use Rattle.cells.specs.Attempts.{Fit, Tries};

use machine::{Context, Fault};
use opcodes::opcode;

// Of the opcodes from add to mod, div and mod divide, and have no result by 0.
fn lacks_divisor(op: u32, b: i32) -> bool
    ensures { result ≡ leb 12 op && eq_z b (pos 0) }
{
    opcode::DIV <= op && b == 0
}

#[tactic(auto, unfolding(crate::specs::Operators::computed))]
fn compute(op: u32, a: i32, b: i32) -> i64
    requires add_or_later { 9 ≤ op }
    requires has_divisor { 12 ≤ op → b ≡ pos 0 → ⊥ }
    ensures { result ≡ computed op a b }
{
    match op {
        opcode::ADD => arithmetic::sum(a, b),
        opcode::SUB => arithmetic::difference(a, b),
        opcode::MUL => arithmetic::product(a, b),
        opcode::DIV => arithmetic::quotient(a, b),
        _ => arithmetic::remainder(a, b),
    }
}

// add, sub, mul, div and mod, by their opcodes. A zero divisor is the same fault as a result beyond 32 bits.
pub fn binary(
    store: &mut [i32],
    size: usize,
    t: usize,
    c: Context,
    op: u32,
) -> Result<Context, Fault>
    requires fit { Fit size t c (length store.old) }
    requires add_or_later { 9 ≤ op }
    requires mod_or_sooner { op ≤ 13 }
    ensures { Tries size (instruction_of op (pos 0)) store.old t c store.new result }
{
    let cells = c.cells;
    if cells < 2 {
        return Err(Fault::StackUnderflow);
    }
    let below = cells::peek(store, size, t, cells - 2);
    let top = cells::peek(store, size, t, cells - 1);
    if lacks_divisor(op, top) {
        return Err(Fault::Arithmetic);
    }
    let Ok(v) = i32::try_from(compute(op, below, top)) else {
        return Err(Fault::Arithmetic);
    };
    cells::poke(store, size, t, cells - 2, v);
    Ok(Context {
        cells: cells - 1,
        ..c
    })
}
