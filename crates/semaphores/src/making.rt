// A new semaphore, with the starting count that is on top.
ghost use Rattle.std.specs.Prelude.{◌≡◌, ◌*◌, length};
ghost use Rattle.machine.specs.Instructions.{newsema};
ghost use Rattle.cells.specs.Contract.{Able, settled_of};
ghost use Rattle.semaphores.specs.Contract.{DoesWith};

use cells::Opening;
use machine::{Fault, Registers, Semaphore};

// A starting count is any number of 32 bits from 0 up.
const COUNTS: usize = 2147483648;

// The starting count is tested before the room.
pub fn newsema(
    store: &mut [i32],
    values: &mut [i32],
    size: usize,
    r: Registers,
) -> Result<Registers, Fault>
    requires able { Able size r (length store.old) }
    requires values_len { length values.old ≡ 2 * size }
    ensures { DoesWith size newsema store.old values.old r
        store.new values.new (settled_of r result) }
{
    let cells = r.cells;
    if cells < 1 {
        return Err(Fault::StackUnderflow);
    }
    let starting = cells::peek(store, size, r.thread, cells - 1);
    let made = r.semaphores;
    match cells::opening_for(starting, COUNTS, made, size) {
        Opening::Wrong => Err(Fault::BadCount),
        Opening::Full => {
            cells::poke(store, size, r.thread, cells - 1, -1);
            Ok(r.advance())
        }
        Opening::Room(_) => {
            tables::set_count(values, size, Semaphore(made), starting);
            cells::poke(store, size, r.thread, cells - 1, made as i32);
            Ok(r.advance().with_semaphores(made + 1))
        }
    }
}
