// The name and the operand of an instruction in a text. Inner.
ghost use Rattle.std.specs.Prelude.{◌<◌, ◌≡◌, Some};
ghost use Rattle.words.specs.Words.{split};
ghost use Rattle.importer.specs.Coding.{coded_entry};
ghost use Rattle.importer.specs.Forms.{bare_item, full_item, item_read, operand_read};

use crate::operands::{BadOperand, read_operand};

// The opcode's place in a word, above the 24 bits of the operand.
const OPCODE: u32 = 16777216;

// The word of an instruction whose operand is beyond 24 bits: halt with an operand, which is against its rule too.
const AGAINST: u32 = 1;

fn bare(opcode: u32) -> Option<u32>
    requires { opcode < 256 }
    ensures { result ≡ coded_entry (bare_item (Some opcode)) }
{
    if names::has_operand(opcode) {
        return None;
    }
    Some(opcode * OPCODE)
}

fn full(opcode: u32, word: &[u8]) -> Option<u32>
    requires { opcode < 256 }
    ensures { result ≡ coded_entry (full_item (Some opcode) (operand_read word.now)) }
{
    if !names::has_operand(opcode) {
        return None;
    }
    match read_operand(word) {
        Ok(bits) => Some(opcode * OPCODE + bits),
        Err(BadOperand::Beyond) => Some(AGAINST),
        Err(BadOperand::Form) => None,
    }
}

// Reads what follows the address and its space as the instruction's word.
pub fn read_item(rest: &[u8]) -> Option<u32>
    ensures { result ≡ coded_entry (item_read (split 32 rest.now)) }
{
    match words::split_once(rest, b' ') {
        None => bare(names::opcode_named(rest)?),
        Some((name, operand)) => full(names::opcode_named(name)?, operand),
    }
}
