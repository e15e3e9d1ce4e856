// Standard input and output of the programs, which say on standard error what can't be read or written. Inner. No
// contract can say which bytes come and go: that of reading says that what it hands back had room in the buffer.
#![tactic(auto)]

ghost use Rattle.std.specs.Prelude.{◌≤◌, length, IfOk, IfErr};
ghost use Rattle.io.specs.Counts.{IsPrefixLen};

use arrayvec::ArrayString;
use std::fmt::Write;
use std::io;
use std::io::{Error, Read};

// Longer than any error's text.
const LONGEST_REASON: usize = 300;

// A read failed, behind so many bytes.
#[derive(Clone, Copy)]
struct Broken {
    length: usize,
    error: Error,
}

// Reads until the input ends, the buffer is full or a read fails. A loop of its own: `read_exact` doesn't say how much
// came before it failed, and `read_to_end` wants a Vec, which lies on the heap.
fn fill(input: &mut impl Read, buf: &mut [u8]) -> Result<usize, Broken>
    ensures ok { IfOk result (λ n. IsPrefixLen n buf.new) }
    ensures err { IfErr result (λ broken. IsPrefixLen broken.length buf.new) }
{
    let mut length = 0;
    while length < buf.len() {
        match input.read(&mut buf[length..]) {
            Ok(0) => return Ok(length),
            Ok(more) => length += more,
            Err(error) => return Err(Broken { length, error }),
        }
    }
    Ok(length)
}

// An error's text without the system's number behind it.
fn reason(text: &str) -> &str {
    match text.split_once(" (os error ") {
        Some((reason, _)) => reason,
        None => text,
    }
}

// A program: its name, in whatever bytes, and the standard error on which it says what it can't do.
#[derive(Clone, Copy)]
pub struct Program<'a, E> {
    pub name: &'a [u8],
    pub errors: E,
}

impl<E: Print> Program<'_, E> {
    // Writes a text as it is to standard error. Where that fails too, there is nobody to tell.
    pub fn complain(&self, text: &[u8]) {
        let _ = self.errors.write_all(text);
    }

    // Says what can't be done, and why.
    fn say(&self, what: &[u8], error: Error) {
        let mut text = ArrayString::<LONGEST_REASON>::new();
        let _ = write!(text, "{error}");
        self.complain(self.name);
        self.complain(what);
        self.complain(b": ");
        self.complain(reason(text.as_str()).as_bytes());
        self.complain(b"\n");
    }

    // Hands back all of standard input, or as much of it as the buffer has room for. Where a read fails, it says so,
    // and what came before is the error's.
    pub fn read<'a>(&self, input: &mut impl Read, buf: &'a mut [u8]) -> Result<&'a [u8], &'a [u8]>
        ensures ok { IfOk result (λ bytes. length bytes.now ≤ length buf.old) }
        ensures err { IfErr result (λ bytes. length bytes.now ≤ length buf.old) }
    {
        match fill(input, buf) {
            Ok(length) => Ok(&buf[..length]),
            Err(broken) => {
                self.say(b": standard input can't be read", broken.error);
                Err(&buf[..broken.length])
            }
        }
    }

    // Says so where the program's output was not written.
    pub fn report(&self, written: io::Result<()>) {
        if let Err(error) = written {
            self.say(b": standard output can't be written", error);
        }
    }
}
