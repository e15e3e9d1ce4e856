// Answers that give a value or refuse, each as three numbers: the refusal's number or 0, its place, and the value.
ghost use Rattle.std.specs.Prelude.{◌≡◌, ℕ};
ghost use Rattle.card.specs.Result.{report_of, told, value_of};
ghost use Rattle.line.specs.Line as runner;
ghost use Rattle.lister.specs.Listing.{line_size};

use card::Refusal;

// A value that C is given as a number.
pub trait Value {
    ghost number: { Self → ℕ };

    fn number(self) -> usize
        ensures { result ≡ number self };
}

// A size.
impl Value for usize {
    ghost number = { λ n. n };

    fn number(self) -> usize {
        self
    }
}

// The number of global cells.
impl Value for u32 {
    ghost number = { λ n. n };

    fn number(self) -> usize {
        self as usize
    }
}

// The length of a line, 0 where there is no such line.
impl Value for Option<usize> {
    ghost number = { line_size };

    fn number(self) -> usize {
        self.unwrap_or(0)
    }
}

pub fn list_of_result<T: Value>(answer: Result<T, Refusal>) -> [usize; 3]
    ensures { result ≡ report_of (told T.number answer) }
{
    match answer {
        Ok(value) => [0, 0, value.number()],
        Err(refusal) => [refusal.reason.number(), refusal.place, 0],
    }
}

// Of the runner's line the value alone: its length, or 0.
pub fn length_of(line: Option<usize>) -> usize
    ensures { result ≡ value_of (runner.told line) }
{
    line.unwrap_or(0)
}
