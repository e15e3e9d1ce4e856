// Arithmetic of cells, 32-bit signed numbers: every result exactly, in 64 bits. A cell holds it if `i32::try_from` does.
// Inner: the machine's instructions call these functions.
#![tactic(auto)]

ghost use Rattle.std.specs.Prelude.{◌≡◌, nat_abs, pos, ◌+ℤ◌, ◌-ℤ◌, ◌*ℤ◌};
ghost use Rattle.std.specs.Int.Signed.{quot_z, rem_z};

pub fn sum(a: i32, b: i32) -> i64
    ensures { result ≡ a +ℤ b }
{
    i64::from(a) + i64::from(b)
}

pub fn difference(a: i32, b: i32) -> i64
    ensures { result ≡ a -ℤ b }
{
    i64::from(a) - i64::from(b)
}

pub fn product(a: i32, b: i32) -> i64
    ensures { result ≡ a *ℤ b }
{
    i64::from(a) * i64::from(b)
}

// Rounded toward zero. In 32 bits, which is faster; -1 is apart, since the least number has no quotient by it there.
pub fn quotient(a: i32, b: i32) -> i64
    requires { b ≡ pos 0 → ⊥ }
    ensures { result ≡ quot_z a b }
{
    if b == -1 {
        return -i64::from(a);
    }
    i64::from(a / b)
}

// With the sign of `a`. -1 is apart, as it is in `quotient`.
pub fn remainder(a: i32, b: i32) -> i64
    requires { b ≡ pos 0 → ⊥ }
    ensures { result ≡ rem_z a b }
{
    if b == -1 {
        return 0;
    }
    i64::from(a % b)
}

// A cell without its sign.
pub fn magnitude(a: i32) -> u64
    ensures { result ≡ nat_abs a }
{
    u64::from(a.unsigned_abs())
}
