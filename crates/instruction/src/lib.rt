// One instruction as a 32-bit word, opcode times 2^24 plus the operand's 24 bits, and whether a rule allows its operand.
// Inner: the card's reader and writer and the machine call these functions.
#![tactic(auto)]

ghost use Rattle.std.specs.Prelude.{◌≡◌, ◌+◌, ◌%◌, ◌<◌, ◌≤◌, length};
ghost use Rattle.std.proofs.lemmas.List.Edits.{sets};
ghost use Rattle.instruction.specs.Bytes.{half_at, half_bytes, word_at, word_bytes};
ghost use Rattle.opcodes.specs.Rules.{allows, is_between};
ghost use Rattle.instruction.specs.Word.{opcode_of, operand_of, signed24};

use opcodes::Rule;

// The two bytes from `at`, big-endian.
pub fn half_at(bytes: &[u8], at: usize) -> u32
    requires { at + 2 ≤ length bytes.now }
    ensures { (result ≡ half_at bytes.now at) × (result < 65536) }
{
    u32::from(u16::from_be_bytes([bytes[at], bytes[at + 1]]))
}

// The four bytes from `at`, big-endian.
pub fn word_at(bytes: &[u8], at: usize) -> u32
    requires { at + 4 ≤ length bytes.now }
    ensures { result ≡ word_at bytes.now at }
{
    u32::from_be_bytes([bytes[at], bytes[at + 1], bytes[at + 2], bytes[at + 3]])
}

// Writes a number below 2^16 big-endian to the two bytes from `at`.
pub fn put_half(out: &mut [u8], at: usize, x: u32)
    requires { at + 2 ≤ length out.old }
    ensures { out.new ≡ sets out.old at (half_bytes x) }
{
    out[at..at + 2].copy_from_slice(&x.to_be_bytes()[2..]);
}

// Writes a word big-endian to the four bytes from `at`.
pub fn put_word(out: &mut [u8], at: usize, w: u32)
    requires { at + 4 ≤ length out.old }
    ensures { out.new ≡ sets out.old at (word_bytes w) }
{
    out[at..at + 4].copy_from_slice(&w.to_be_bytes());
}

pub fn opcode(w: u32) -> u32
    ensures { result ≡ opcode_of w }
{
    w / 16777216
}

// The operand's 24 bits.
pub fn bits(w: u32) -> u32
    ensures { result ≡ w % 16777216 }
{
    w % 16777216
}

// 24 bits in two's complement: std converts whole numbers of bytes of a type, and there is none of 24 bits.
fn signed(bits: u32) -> i32
    requires { bits < 16777216 }
    ensures { result ≡ signed24 bits }
{
    let turned = (bits + 8388608) % 16777216;
    turned as i32 - 8388608
}

pub fn operand(w: u32) -> i32
    ensures { result ≡ operand_of w }
{
    signed(bits(w))
}

fn between(low: i32, high: i32, k: i32) -> bool
    ensures { result ≡ is_between low high k }
{
    (low..=high).contains(&k)
}

// Whether `rule` allows the operand with these bits on a card whose last instruction is number `last`. Most opcodes
// take 0 alone, and for them the bits are not made a number.
pub fn permits(rule: Rule, last: i32, bits: u32) -> bool
    requires { bits < 16777216 }
    ensures { result ≡ allows rule last (signed24 bits) }
{
    match rule {
        Rule::FromTo(low, high) => between(low, high, signed(bits)),
        Rule::ZeroToNMinus1 => between(0, last, signed(bits)),
        Rule::Zero => bits == 0,
    }
}
