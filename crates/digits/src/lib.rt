// Decimal numbers in a text. Inner: readers of texts call these functions on a word that they have found.
#![tactic(auto)]

ghost use Rattle.std.specs.Prelude.{true, ◌≡◌, ◌+◌, ◌*◌, ◌-◌, ◌≤◌};
ghost use Rattle.digits.specs.Reading.{all_digits, capped, decimal_of, is_decimal, is_digit, value_of};

// A number is told apart up to here: every larger one counts as this.
pub const CAP: u64 = 1000000000;

fn is_digit(b: u8) -> bool
    ensures { result ≡ is_digit b }
{
    b'0' <= b && b <= b'9'
}

pub fn all_digits(word: &[u8]) -> bool
    ensures { result ≡ all_digits word.now }
{
    word.iter().all(|b| is_digit(*b))
}

// Whether a word is a decimal number without leading zeros.
fn is_decimal(word: &[u8]) -> bool
    ensures { result ≡ is_decimal word.now }
{
    if word.len() < 1 {
        return false;
    }
    if word[0] == b'0' {
        return word.len() == 1;
    }
    all_digits(word)
}

// A number with a digit more.
fn longer(n: u64, b: u8) -> u64
    requires small { n ≤ 1000000000 }
    requires digit { is_digit b ≡ true }
    ensures { result ≡ capped (10 * n + (b - 48)) }
{
    (10 * n + u64::from(b - b'0')).min(CAP)
}

// The number that digits are, leading zeros or not.
pub fn value(word: &[u8]) -> u64
    requires { all_digits word.now ≡ true }
    ensures { result ≡ capped (value_of word.now) }
{
    let mut n = 0;
    for b in word {
        n = longer(n, *b);
    }
    n
}

// A word as a decimal number, or `CAP` where that is larger.
pub fn read_decimal(word: &[u8]) -> Option<u64>
    ensures { result ≡ decimal_of word.now }
{
    if is_decimal(word) {
        Some(value(word))
    } else {
        None
    }
}
