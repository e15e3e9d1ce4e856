// Sessions as text. A line with a colon is a session: a label, the colon, and the card's instructions with commas
// between them, as `P6: newmutex, dup, lock, lock`. `3*pop` stands for three, and `g 4096` among them for 4,096
// global cells in place of one. Any other line is a remark. What stands before the instructions is printed as it is.
use crate::naming::{Name, name_of, number, word};
use crate::show::card_line;
use arrayvec::ArrayVec;

const MOST_WORDS: usize = 4096;

// The number of global cells, and no instruction.
const GLOBALS: Name = *b"g         ";

// A session's card, as far as its text was read.
#[derive(Drop)]
struct Card {
    cells: usize,
    words: ArrayVec<u32, MOST_WORDS>,
}

impl Card {
    // What stands between two commas: an instruction, or the number of global cells. What has no room is left out.
    fn put(&mut self, text: &[u8]) {
        let mut factors = text.rsplit(|b| *b == b'*');
        let operand = factors.next().map_or(0, number);
        let times = factors.next().map_or(1, number);
        let name = name_of(text);
        if name == GLOBALS {
            self.cells = operand as usize;
            return;
        }
        let word = word(text, name, operand);
        for _ in 0..times {
            let _ = self.words.try_push(word);
        }
    }
}

fn session(rt: &impl Print, text: &[u8]) {
    let mut card = Card {
        cells: 1,
        words: ArrayVec::new(),
    };
    for part in text.split(|b| *b == b',') {
        card.put(part);
    }
    let _ = print!(rt; " ");
    card_line(rt, card.cells, card.words.as_slice());
}

// A line with its line feed. One without is the last, and cut short: only what stands before the card is printed.
fn line(rt: &impl Print, line: &[u8]) {
    let Some(colon) = line.iter().position(|b| *b == b':') else {
        let _ = rt.write_all(line);
        return;
    };
    let (label, text) = line.split_at(colon + 1);
    let _ = rt.write_all(label);
    if let Some(text) = text.strip_suffix(b"\n") {
        session(rt, text);
    }
}

// Runs the sessions of a text.
pub fn sessions(rt: &impl Print, input: &[u8]) {
    for text in input.split_inclusive(|b| *b == b'\n') {
        line(rt, text);
    }
}
