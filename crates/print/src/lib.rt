// What the programs print on standard output. Inner. Each function answers why it can't be written, if so.
#![tactic(auto)]

use std::fmt;
use std::fmt::{Display, Formatter};
use std::io::{Error, ErrorKind, Result};

// A proved loop has to end: no card has more lines.
const MOST_LINES: usize = 4097;

// The longest image's bytes.
pub const LONGEST_IMAGE: usize = 16393;

// The start of a buffer, as far as a call filled it: lister, importer and writer answer a length beside the lent
// buffer, as they do in C.
pub fn start(buffer: &[u8], length: usize) -> Result<&[u8]> {
    buffer
        .get(..length)
        .ok_or(Error::from(ErrorKind::InvalidInput))
}

// The line of a refusal.
pub fn refusal(output: &impl Print, number: usize, place: usize) -> Result<()> {
    let mut out = [0u8; line::ROOM];
    let length = line::put_refused(&mut out, number, place);
    output.write_all(&out[..length])
}

// The runner's line: what came of running a card.
pub fn line(output: &impl Print, image: &[u8]) -> Result<()> {
    let mut out = [0u8; line::ROOM];
    match line::runner_line(image, &mut out) {
        Some(length) => output.write_all(&out[..length]),
        None => Err(Error::from(ErrorKind::InvalidInput)),
    }
}

// A card's text, line by line, or its refusal.
pub fn text(output: &impl Print, image: &[u8]) -> Result<()> {
    for line in 0..MOST_LINES {
        let mut out = [0u8; lister::ROOM];
        match lister::list_line(image, line, &mut out) {
            Ok(Some(length)) => output.write_all(start(&out, length)?)?,
            Ok(None) => return Ok(()),
            Err(refused) => return refusal(output, refused.reason.number(), refused.place),
        }
    }
    Ok(())
}

const DIGITS: [u8; 16] = *b"0123456789abcdef";

// So many bytes are written at a time: a formatter asked for each digit takes three times as long.
const PART: usize = 64;

// Bytes in hexadecimal.
#[derive(Clone, Copy)]
struct Hex<'a>(&'a [u8]);

impl Display for Hex<'_> {
    fn fmt<W: fmt::Write>(&self, f: &mut Formatter<W>) -> fmt::Result {
        for part in self.0.chunks(PART) {
            let mut digits = [0u8; 2 * PART];
            for (pair, byte) in digits.chunks_exact_mut(2).zip(part) {
                pair[0] = DIGITS[usize::from(*byte / 16)];
                pair[1] = DIGITS[usize::from(*byte % 16)];
            }
            let text = str::from_utf8(&digits[..2 * part.len().min(PART)]).map_err(|_| fmt::Error)?;
            f.write_str(text)?;
        }
        Ok(())
    }
}

// The image of a text in hexadecimal, on a line, or the text's refusal.
pub fn imported(output: &impl Print, text: &[u8]) -> Result<()> {
    let mut image = [0u8; LONGEST_IMAGE];
    match importer::import(text, &mut image) {
        Ok(size) => println!(output; "{}", Hex(start(&image, size)?)),
        Err(refused) => refusal(output, refused.reason.number(), refused.place),
    }
}
