// Fetching one instruction of a code part, or all of them at once. Inner: the machine asks for instructions that are
// there.
ghost use Rattle.std.specs.Prelude.{◌≡◌, ◌+◌, ◌*◌, ◌≤◌, length};
ghost use Rattle.card.specs.Code.{Unpacked, instruction_at};

use crate::word_list::{CodeWords, WordList};

// An instruction taken apart.
#[derive(Clone, Copy)]
pub struct Instruction {
    pub opcode: u32,
    pub operand: i32,
}

pub fn fetch(code: &[u8], at: usize) -> Instruction
    requires { 4 * at + 4 ≤ length code.now }
    ensures { result ≡ instruction_at code.now at }
{
    let w = CodeWords(code).word(at);
    Instruction {
        opcode: instruction::opcode(w),
        operand: instruction::operand(w),
    }
}

// Unpacks the `n` instructions of a code part, or none where there is no room for all: so many were unpacked.
pub fn unpack(code: &[u8], n: usize, words: &mut [u32]) -> usize
    requires { length code.now ≡ 4 * n }
    ensures { Unpacked code.now n words.new result }
{
    if words.len() < n {
        return 0;
    }
    for (i, w) in words[..n].iter_mut().enumerate() {
        *w = CodeWords(code).word(i);
    }
    n
}
