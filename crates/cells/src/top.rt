// Threads, mutexes, conditions and semaphores as an instruction finds them on the stack, each by its number, and the
// stack with its top popped.
ghost use Rattle.std.specs.Prelude.{◌≡◌, ◌-◌, ◌<◌, ◌≤◌, length, IfOk, OnOk};
ghost use Rattle.cells.specs.Contract.{Able};
ghost use Rattle.cells.specs.Top.{number_at, number_found};
ghost use Rattle.machine.specs.Registers.{advanced, with_cells};

use crate::cells::peek;
use crate::index::checked;
use crate::kinds::Numbered;
use machine::{Fault, Registers};

// What the cell `at` from the top names, counted from 1. That there is no such cell comes before that there is no such
// number.
#[tactic(auto, unfolding(crate::specs::Top::number_at))]
pub fn named<K: Numbered>(store: &[i32], size: usize, r: Registers, at: usize) -> Result<K, Fault>
    requires able { Able size r (length store.now) }
    requires le_at { 1 ≤ at }
    ensures found { number_found K.number result ≡ number_at size store.now r at (K.made r) K.MISSING }
    ensures made { IfOk result (λ k. K.number k < K.made r) }
    ensures enough { OnOk result (at ≤ r.cells) }
{
    let cells = r.cells;
    if cells < at {
        return Err(Fault::StackUnderflow);
    }
    let v = peek(store, size, r.thread, cells - at);
    let number = checked(v, K::made(r)).ok_or(K::MISSING)?;
    Ok(K::numbered(number))
}

// Past the instruction, with top popped.
pub fn popped(r: Registers) -> Registers
    requires pc_bound { r.pc < 4096 }
    requires le_cells { 1 ≤ r.cells }
    ensures { result ≡ with_cells (advanced r) (r.cells - 1) }
{
    let cells = r.cells;
    r.advance().with_cells(cells - 1)
}
