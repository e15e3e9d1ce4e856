// Comparisons of top and the cell below it, which give 1 or 0.
ghost use Rattle.std.specs.Prelude.{◌≡◌, ◌≤◌, pos, length};
ghost use Rattle.machine.specs.Instructions.{instruction_of};
ghost use Rattle.operators.specs.Operators.{tested};
ghost use Rattle.cells.specs.Attempts.{Fit, Tries};

use machine::{Context, Fault};
use opcodes::opcode;

#[tactic(auto, unfolding(crate::specs::Operators::tested))]
fn test(op: u32, a: i32, b: i32) -> bool
    ensures { result ≡ tested op a b }
{
    match op {
        opcode::EQ => a == b,
        opcode::NEQ => a != b,
        opcode::LESS => a < b,
        _ => a <= b,
    }
}

// eq, neq, less and leq, by their opcodes.
pub fn compare(
    store: &mut [i32],
    size: usize,
    t: usize,
    c: Context,
    op: u32,
) -> Result<Context, Fault>
    requires fit { Fit size t c (length store.old) }
    requires eq_or_later { 15 ≤ op }
    requires leq_or_sooner { op ≤ 18 }
    ensures { Tries size (instruction_of op (pos 0)) store.old t c store.new result }
{
    let cells = c.cells;
    if cells < 2 {
        return Err(Fault::StackUnderflow);
    }
    let below = cells::peek(store, size, t, cells - 2);
    let top = cells::peek(store, size, t, cells - 1);
    cells::poke(store, size, t, cells - 2, i32::from(test(op, below, top)));
    Ok(Context {
        cells: cells - 1,
        ..c
    })
}
