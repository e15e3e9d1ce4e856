// The names of the opcodes, written and read from a word, and which opcodes have an operand: the table of opcodes for
// texts. Inner: the listing and the importer call these functions.
#![tactic(auto)]

ghost use Rattle.std.specs.Prelude.{◌+◌, ◌<◌, ◌≤◌, length, ◌≡◌};
ghost use Rattle.opcodes.specs.Ascii.{same};
ghost use Rattle.opcodes.specs.Page.{name_of, rule_of};
ghost use Rattle.opcodes.specs.Rules.{has_operand};
ghost use Rattle.text.specs.Lines.{Puts};
ghost use Rattle.words.specs.Words.{up_to};
ghost use Rattle.names.specs.Names.{opcode_named};

use opcodes::{COUNT, Rule};

// Writes an opcode's name, which is empty past the last opcode.
pub fn put_name(out: &mut [u8], at: usize, opcode: usize) -> usize
    requires { at + 10 ≤ length out.old }
    ensures puts { Puts (name_of opcode) out.old at out.new result }
    ensures upper_bound { result ≤ at + 10 }
{
    if COUNT <= opcode {
        return at;
    }
    let entry = opcodes::entry_at(opcode);
    let name = &entry.name;
    let end = words::find(name, 0, b' ');
    text::put_bytes(out, at, &name[..end])
}

// Whether a word is a name of the table, up to its first space.
fn is_name(word: &[u8], name: &[u8]) -> bool
    ensures { result ≡ same (up_to 32 name.now) word.now }
{
    let end = words::find(name, 0, b' ');
    &name[..end] == word
}

// The opcode that a word names, where it names one.
pub fn opcode_named(word: &[u8]) -> Option<u32>
    ensures { result ≡ opcode_named word.now }
{
    let table = opcodes::all();
    for entry in &table {
        if is_name(word, &entry.name) {
            return Some(entry.number);
        }
    }
    None
}

// Whether an instruction's line has an operand: its rule allows more than 0.
pub fn has_operand(opcode: u32) -> bool
    ensures { result ≡ has_operand (rule_of opcode) }
{
    let at = opcode as usize;
    if COUNT <= at {
        return false;
    }
    let entry = opcodes::entry_at(at);
    matches!(entry.rule, Rule::FromTo(_, _) | Rule::ZeroToNMinus1)
}
