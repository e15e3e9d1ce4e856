// The lines of instructions in a text. Inner.
ghost use Rattle.std.specs.Prelude.{◌<◌, ◌≤◌, drop, length, set, ◌≡◌};
ghost use Rattle.card.specs.Result.{told};
ghost use Rattle.words.specs.Words.{split};
ghost use Rattle.importer.specs.Coding.{Stores, address_read, coded_line, coded_lines, next_read};
ghost use Rattle.importer.specs.Forms.{line_read, lines_read};

use crate::items::read_item;
use card::{Reason, Refusal};

// Reads four digits.
fn read_address(word: &[u8]) -> Option<usize>
    ensures { result ≡ address_read word.now }
{
    if word.len() != 4 {
        return None;
    }
    if !digits::all_digits(word) {
        return None;
    }
    Some(digits::value(word) as usize)
}

// Reads the line of instruction `index` without its line feed as that instruction's word. Its form comes before its
// address.
fn read_line(line: &[u8], index: usize) -> Result<u32, Reason>
    ensures { result ≡ coded_line (line_read (split 32 line.now)) index }
{
    let Some((address, item)) = words::split_once(line, b' ') else {
        return Err(Reason::TextLine);
    };
    let word = read_item(item).ok_or(Reason::TextLine)?;
    let address = read_address(address).ok_or(Reason::TextLine)?;
    if address != index {
        return Err(Reason::TextAddress);
    }
    Ok(word)
}

// Reads the line that begins at `at`, which must end with a line feed: its word, and the place of the next line.
fn next_line(text: &[u8], at: usize, index: usize) -> Result<(u32, usize), Refusal>
    requires { at < length text.now }
    ensures { result ≡ next_read index at (split 10 (drop at text.now)) }
{
    let Some((line, _)) = words::split_once(&text[at..], b'\n') else {
        let reason = Reason::TextLine;
        return Err(Refusal { reason, place: at });
    };
    match read_line(line, index) {
        Ok(word) => Ok((word, at + line.len() + 1)),
        Err(reason) => Err(Refusal { reason, place: at }),
    }
}

// Stores a word where there is room for it: a text with more instructions than a card can have is refused by their
// count.
// By an index: with `get_mut`, which was tried, two goals stay open.
fn store(words: &mut [u32], index: usize, word: u32)
    ensures { words.new ≡ set words.old index word }
{
    if index < words.len() {
        words[index] = word;
    }
}

// Reads the lines from `start` on, stores the words of their instructions and answers how many there are.
pub fn read_lines(text: &[u8], start: usize, words: &mut [u32]) -> Result<usize, Refusal>
    requires { start ≤ length text.now }
    ensures value { told (λ count. count) result
        ≡ coded_lines 0 (lines_read 0 start (split 10 (drop start text.now))) }
    ensures stores { Stores (lines_read 0 start (split 10 (drop start text.now))) words.old
        words.new }
{
    // A refusal names the byte at which its line begins: a `for` over lines would add it up beside them just as here.
    let mut at = start;
    let mut index = 0;
    while at < text.len() {
        let (word, next) = next_line(text, at, index)?;
        store(words, index, word);
        at = next;
        index += 1;
    }
    Ok(index)
}
