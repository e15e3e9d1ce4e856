// The search for a card's first bad instruction, in a list of words or in the code part of an image. Inner.
ghost use Rattle.std.specs.Prelude.{◌≡◌, ◌*◌, ◌<◌, ℕ, List, length, get_or};
ghost use Rattle.opcodes.specs.Table.{AreRules};
ghost use Rattle.instruction.specs.Rules.{check_of};
ghost use Rattle.card.specs.Code.{first_bad, scan_of, found};

use crate::refusals::{Reason, Refusal, refuse_if};
use crate::word_list::WordList;
use opcodes::Rule;

// Whether one instruction is fine, by the rules of all opcodes: the opcode is looked at first.
fn check(rules: &[Rule; opcodes::COUNT], last: i32, w: u32, index: usize) -> Result<(), Refusal>
    requires { AreRules rules.now }
    ensures { found result ≡ scan_of (check_of last w) index }
{
    let opcode = instruction::opcode(w) as usize;
    refuse_if(opcodes::COUNT <= opcode, Reason::Opcode, index)?;
    let permitted = instruction::permits(rules[opcode], last, instruction::bits(w));
    refuse_if(!permitted, Reason::Operand, index)
}

// The first bad instruction of a card whose last is number `last`: its place is its index.
pub fn scan<W: WordList>(words: &W, last: i32) -> Result<(), Refusal>
    ensures { found result ≡ first_bad last 0 (W.words words.now) }
{
    let rules = opcodes::rules();
    for index in 0..words.len() {
        check(&rules, last, words.word(index), index)?;
    }
    Ok(())
}
