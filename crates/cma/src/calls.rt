// Step and run. Each call tests its card, store and tables once, in the paper's order, and a run then goes on without
// looking at them again.
ghost use Rattle.std.specs.Prelude.{◌≤◌};
ghost use Rattle.cma.specs.Contract.{Judges, Ready};
ghost use Rattle.outcome.specs.Outcome.{Gives};
ghost use Rattle.machine.specs.Calls.{boxed, run_call, step_call};
ghost use Rattle.machine.specs.Size.{full};

use card::{Reason, Refusal, layout, refuse_if};
use engine::Card;
use machine::sizes::INSTRUCTIONS;
use machine::{Registers, sizes};
use outcome::{Outcome, ended, refused};

// Tests the card, then the store's size, then the tables. Both instances of `call` call it, as they do `proceed`, and so
// the compiler leaves each a function of its own: in one with the engine, the test of the tables takes longer.
fn judge(
    image: &[u8],
    store: &[i32],
    tables: &[usize],
    values: &[i32],
    size: usize,
    r: Registers,
) -> Result<(), Refusal>
    requires { size ≤ 32 }
    ensures { Judges size image.now (boxed store.now tables.now values.now r) result }
{
    card::read(image)?;
    refuse_if(store.len() != sizes::STORE * size, Reason::Store, 0)?;
    let formed = wellformed::well_formed(r, tables, values, size);
    refuse_if(!formed, Reason::Tables, 0)?;
    Ok(())
}

// Runs a card that passed. It is unpacked into `words`, where there is room for it; else each instruction is taken from
// the image.
fn proceed(
    image: &[u8],
    store: &mut [i32],
    tables: &mut [usize],
    values: &mut [i32],
    words: &mut [u32],
    size: usize,
    r: Registers,
    m: usize,
) -> Outcome
    requires size_bound { size ≤ 32 }
    requires ready { Ready size image.now (boxed store.old tables.old values.old r) }
    ensures { Gives (run_call size image.now m
        (boxed store.old tables.old values.old r)) result
        store.new tables.new values.new }
{
    // The code part is what follows the header.
    let code = &image[layout::CODE..];
    let card = Card::new(code, words);
    let p = engine::run(&card, store, tables, values, size, r, m);
    ended(p.registers, p.count)
}

// Judges a call on the box of 32 threads, and then runs its card for at most `m` steps, with room for so many words.
fn call<const WORDS: usize>(
    image: &[u8],
    store: &mut [i32],
    tables: &mut [usize],
    values: &mut [i32],
    r: Registers,
    m: usize,
) -> Outcome
    requires { WORDS ≤ 4096 }
    ensures { Gives (run_call full image.now m
        (boxed store.old tables.old values.old r)) result
        store.new tables.new values.new }
{
    match judge(image, store, tables, values, 32, r) {
        Err(refusal) => refused(refusal, r),
        Ok(()) => {
            let mut words = [0; WORDS];
            proceed(image, store, tables, values, &mut words, 32, r, m)
        }
    }
}

// One step of a machine in the box of 32 threads. To unpack the card would cost more than its one instruction.
pub fn step(
    image: &[u8],
    store: &mut [i32],
    tables: &mut [usize],
    values: &mut [i32],
    r: Registers,
) -> Outcome
    ensures { Gives (step_call full image.now
        (boxed store.old tables.old values.old r)) result
        store.new tables.new values.new }
{
    call::<0>(image, store, tables, values, r, 1)
}

// A run of `m` steps, which stops early when the machine does.
pub fn run(
    image: &[u8],
    store: &mut [i32],
    tables: &mut [usize],
    values: &mut [i32],
    r: Registers,
    m: usize,
) -> Outcome
    ensures { Gives (run_call full image.now m
        (boxed store.old tables.old values.old r)) result
        store.new tables.new values.new }
{
    call::<INSTRUCTIONS>(image, store, tables, values, r, m)
}
