// Where the thread goes on: jumps, a call and the way back from it, and the end of the run.
ghost use Rattle.std.specs.Prelude.{ℕ, ◌<◌, ℤ, List, length};
ghost use Rattle.machine.specs.Instructions.{call, halt, jump, jumpz};
ghost use Rattle.cells.specs.Attempts.{Fit, Tries, TriesIn};
ghost use Rattle.cells.specs.Contract.{DoesAnywhere};
ghost use Rattle.control.specs.Contract.{GoesBack};

use cells::{checked, peek, poke};
use machine::{Context, Fault, Registers, sizes, states};

pub fn halt(r: Registers) -> Registers
    requires { r.pc < 4096 }
    ensures { DoesAnywhere halt r result }
{
    r.advance().with_state(states::HALTED, r.thread)
}

pub fn jump(c: Context, a: usize) -> Result<Context, Fault>
    ensures { (size t : ℕ) (store : List ℤ) → Tries size (jump a) store t c store result }
{
    Ok(Context { pc: a, ..c })
}

// The card has n instructions, and the reader has seen to it that `a` is one of them. Asking again costs nothing, and
// keeps the compiler from choosing between the two PCs without a branch, which is slower.
pub fn jumpz(
    store: &[i32],
    size: usize,
    t: usize,
    c: Context,
    a: usize,
    n: usize,
) -> Result<Context, Fault>
    requires fit { Fit size t c (length store.now) }
    requires a_lt_n { a < n }
    ensures { Tries size (jumpz a) store.now t c store.now result }
{
    let cells = c.cells;
    if cells < 1 {
        return Err(Fault::StackUnderflow);
    }
    let top = peek(store, size, t, cells - 1);
    if top == 0 {
        if n <= a {
            return Err(Fault::NoInstruction);
        }
        return Ok(Context {
            pc: a,
            cells: cells - 1,
            ..c
        });
    }
    Ok(Context {
        cells: cells - 1,
        ..c
    })
}

// The callee returns to the instruction after this one.
pub fn call(
    store: &mut [i32],
    size: usize,
    t: usize,
    c: Context,
    n: usize,
) -> Result<Context, Fault>
    requires { Fit size t c (length store.old) }
    ensures { TriesIn size n call store.old t c store.new result }
{
    let cells = c.cells;
    if cells < 3 {
        return Err(Fault::StackUnderflow);
    }
    let top = peek(store, size, t, cells - 1);
    let Some(a) = checked(top, n) else {
        return Err(Fault::BadTarget);
    };
    poke(store, size, t, cells - 1, c.pc as i32);
    Ok(Context {
        pc: a,
        fp: cells - 1,
        ..c
    })
}

// A return to the caller. From a thread's first frame there is none: what then follows is not for this function.
pub fn back(store: &[i32], size: usize, t: usize, c: Context, n: usize) -> Result<Context, Fault>
    requires { Fit size t c (length store.now) }
    ensures { GoesBack size n store.now t c result }
{
    let fp = c.fp;
    if c.cells <= fp {
        return Err(Fault::BadFrame);
    }
    let caller = peek(store, size, t, fp - 1);
    let Some(old) = checked(caller, fp) else {
        return Err(Fault::BadFrame);
    };
    if old < sizes::NEW_FP {
        return Err(Fault::BadFrame);
    }
    let after = peek(store, size, t, fp);
    let Some(pc) = checked(after, n) else {
        return Err(Fault::BadFrame);
    };
    Ok(Context {
        pc,
        cells: fp - 1,
        fp: old,
    })
}
