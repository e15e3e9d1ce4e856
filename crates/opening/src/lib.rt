// Setting up a machine for a card. `set_up` is public: it takes any input, and refuses what is bad. Crate `cma`
// passes it on.
#![tactic(auto)]

ghost use Rattle.std.specs.Prelude.{◌≤◌};
ghost use Rattle.outcome.specs.Outcome.{Gives};
ghost use Rattle.opening.specs.Tests.{Opens};
ghost use Rattle.machine.specs.Calls.{boxed, set_up};
ghost use Rattle.machine.specs.Registers.{zeros};
ghost use Rattle.machine.specs.Size.{full};

use card::{Reason, Refusal, refuse_if};
use machine::{Answer, sizes};
use outcome::{Outcome, no_registers, refused};

// Tests the card, then the sizes of what is lent, and answers the number of global cells.
fn check(
    image: &[u8],
    store: &[i32],
    tables: &[usize],
    values: &[i32],
    size: usize,
) -> Result<u32, Refusal>
    requires { size ≤ 32 }
    ensures { Opens size image.now (boxed store.now tables.now values.now zeros) result }
{
    let cells = card::read(image)?;
    refuse_if(store.len() != sizes::STORE * size, Reason::Store, 0)?;
    refuse_if(tables.len() != sizes::TABLES * size, Reason::Tables, 0)?;
    refuse_if(values.len() != sizes::VALUES * size, Reason::Tables, 0)?;
    Ok(cells)
}

fn set_up_box(
    image: &[u8],
    store: &mut [i32],
    tables: &mut [usize],
    values: &mut [i32],
    size: usize,
) -> Outcome
    requires some_threads { 1 ≤ size }
    requires size_bound { size ≤ 32 }
    ensures { Gives (set_up size image.now
        (boxed store.old tables.old values.old zeros)) result
        store.new tables.new values.new }
{
    match check(image, store, tables, values, size) {
        Err(refusal) => refused(refusal, no_registers()),
        Ok(cells) => {
            let registers = setup::start(store, tables, values, size, cells as usize);
            Outcome {
                answer: Answer::Running,
                count: 0,
                registers,
            }
        }
    }
}

// Sets up the box of 32 threads: a store of 8,192 cells, tables of 224 numbers and 64 values, whatever they hold.
pub fn set_up(image: &[u8], store: &mut [i32], tables: &mut [usize], values: &mut [i32]) -> Outcome
    ensures { Gives (set_up full image.now
        (boxed store.old tables.old values.old zeros)) result
        store.new tables.new values.new }
{
    set_up_box(image, store, tables, values, 32)
}
