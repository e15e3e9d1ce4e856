// What stands between two commas in the text of a session: `3*pop`, `loadc -1`, `g 4096`.
use arrayvec::ArrayVec;

// No name is longer. Of more letters the last ones count.
const LONGEST_NAME: usize = 9;

// A name as the table of opcodes has it, with spaces behind.
pub type Name = [u8; opcodes::WIDTH];

// What no name stands for.
const UNKNOWN: u32 = 255;

const OPERAND: u32 = 0xffffff;

// The digits of a text, whatever stands between them. Of more than seven the last ones count.
pub fn number(text: &[u8]) -> u32 {
    text.iter()
        .filter(|b| b.is_ascii_digit())
        .fold(0, |n, b| n % 1000000 * 10 + u32::from(*b % 16))
}

// The name in a text: its letters. They are taken out once, and then compared with each name of the table.
pub fn name_of(text: &[u8]) -> Name {
    let mut from_end = ArrayVec::<u8, LONGEST_NAME>::new();
    let letters = text.iter().rev().filter(|b| b.is_ascii_lowercase());
    for b in letters.take(LONGEST_NAME) {
        let _ = from_end.try_push(*b);
    }
    let mut name = [b' '; opcodes::WIDTH];
    for (to, from) in name.iter_mut().zip(from_end.as_slice().iter().rev()) {
        *to = *from;
    }
    name
}

// The opcode of a name.
fn opcode_of(name: Name) -> u32 {
    opcodes::all()
        .iter()
        .find(|entry| entry.name == name)
        .map_or(UNKNOWN, |entry| entry.number)
}

// The word of an instruction with this name. A `-` in its text makes its operand negative.
pub fn word(text: &[u8], name: Name, operand: u32) -> u32 {
    let value = if text.contains(&b'-') {
        operand.wrapping_neg()
    } else {
        operand
    };
    (opcode_of(name) << 24) | (value & OPERAND)
}
