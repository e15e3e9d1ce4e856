// What an instruction finds that makes something of which a box has only so many: a number in range, and room for one
// more.
ghost use Rattle.std.specs.Prelude.{◌≡◌};
ghost use Rattle.cells.specs.Openings.{opening_of};

use crate::index::checked;

// Three answers, each with an end of its own in the instruction: neither an Option nor a Result.
#[derive(Clone, Copy)]
pub enum Opening {
    // There is room, and the number is in range.
    Room(usize),
    // All were made.
    Full,
    // The number is out of range.
    Wrong,
}

// The number must be below `limit`, and is tested before the room: `made` of `most` were made.
pub fn opening_for(v: i32, limit: usize, made: usize, most: usize) -> Opening
    ensures { result ≡ opening_of v limit made most }
{
    match checked(v, limit) {
        None => Opening::Wrong,
        Some(a) if made < most => Opening::Room(a),
        Some(_) => Opening::Full,
    }
}
