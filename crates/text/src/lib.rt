// Text in a lent buffer: each function writes from byte `at` on and answers the byte after its text. Inner: the
// callers see to the room.
#![tactic(auto)]

ghost use Rattle.std.specs.Prelude.{◌+◌, ◌<◌, ◌≤◌, length, [], ◌∷◌};
ghost use Rattle.text.specs.Decimal.{decimal, signed};
ghost use Rattle.text.specs.Lines.{Puts};

pub fn put_byte(out: &mut [u8], at: usize, byte: u8) -> usize
    requires { at < length out.old }
    ensures { Puts (byte ∷ []) out.old at out.new result }
{
    out[at] = byte;
    at + 1
}

pub fn put_bytes(out: &mut [u8], at: usize, text: &[u8]) -> usize
    requires { at + length text.now ≤ length out.old }
    ensures { Puts text.now out.old at out.new result }
{
    let end = at + text.len();
    out[at..end].copy_from_slice(text);
    end
}

// A number in decimal, of at most 20 digits.
pub fn put_decimal(out: &mut [u8], at: usize, n: u64) -> usize
    requires { at + 20 ≤ length out.old }
    ensures puts { Puts (decimal n) out.old at out.new result }
    ensures upper_bound { result ≤ at + 20 }
{
    let mut digits = [0u8; 20];
    let k = io::decimal(n, &mut digits);
    put_bytes(out, at, &digits[..k])
}

// A cell in decimal, with `-` in front of a negative one.
pub fn put_signed(out: &mut [u8], at: usize, v: i32) -> usize
    requires { at + 21 ≤ length out.old }
    ensures puts { Puts (signed v) out.old at out.new result }
    ensures upper_bound { result ≤ at + 21 }
{
    let digits = arithmetic::magnitude(v);
    if v < 0 {
        let next = put_byte(out, at, b'-');
        return put_decimal(out, next, digits);
    }
    put_decimal(out, at, digits)
}
