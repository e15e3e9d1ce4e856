// The one range check of the machine: a cell's value that must be a number below a limit.
ghost use Rattle.std.specs.Prelude.{◌≡◌, ◌≤◌, pos, ◌+ℤ◌};
ghost use Rattle.cells.specs.Contract.{index_of};

// In 64 bits, which hold every sum of two cells' values too. `usize::try_from` in place of the test and the cast is
// slower: 24.9 instructions a step on the card `counting`, and so 23.0.
fn ranged(v: i64, limit: usize) -> Option<usize>
    ensures { result ≡ index_of v limit }
{
    if v < 0 {
        return None;
    }
    Some(v as usize).filter(|a| *a < limit)
}

pub fn checked(v: i32, limit: usize) -> Option<usize>
    ensures { result ≡ index_of v limit }
{
    ranged(i64::from(v), limit)
}

// Cell FP + k, if it is below the limit.
pub fn offset(fp: usize, k: i32, limit: usize) -> Option<usize>
    requires { fp ≤ 127 }
    ensures { result ≡ index_of (pos fp +ℤ k) limit }
{
    ranged(fp as i64 + i64::from(k), limit)
}
