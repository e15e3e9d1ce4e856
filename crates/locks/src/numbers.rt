// The number of the next mutex or condition.
ghost use Rattle.std.specs.Prelude.{◌<◌, ◌≤◌, length, ◌≡◌};
ghost use Rattle.cells.specs.Contract.{Able};
ghost use Rattle.locks.specs.Numbers.{Numbers, next_number};

use machine::{Registers, sizes};

// The number of the next mutex or condition where `made` were made, or −1 where no more can be.
fn next_number(made: usize, limit: usize) -> i32
    requires { limit ≤ 64 }
    ensures { result ≡ next_number made limit }
{
    if made < limit { made as i32 } else { -1 }
}

// Pushes the number of the next mutex or condition, and goes on. The caller has seen to the room.
pub fn push_number(store: &mut [i32], size: usize, r: Registers, made: usize) -> Registers
    requires able { Able size r (length store.old) }
    requires cells_bound { r.cells < 128 }
    ensures { Numbers size made store.old r store.new result }
{
    let cells = r.cells;
    cells::poke(
        store,
        size,
        r.thread,
        cells,
        next_number(made, sizes::MUTEXES * size),
    );
    r.advance().with_cells(cells + 1)
}
