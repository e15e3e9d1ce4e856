// The call that gives the image of a text.
ghost use Rattle.std.specs.Prelude.{◌≤◌, length, ◌≡◌, Err};
ghost use Rattle.card.specs.Result.{told};
ghost use Rattle.importer.specs.Coding.{WroteCard};
ghost use Rattle.importer.specs.Coding as coding;
ghost use Rattle.importer.specs.Importing.{Imports};

use crate::header::read_header;
use crate::lines::read_lines;
use card::{Reason, Refusal, layout};

// The most instructions that a card has.
const MOST: usize = 4096;

// What the importer refuses where the writer refuses this: the same, but for the number of no room.
fn renumbered(refusal: Refusal) -> Refusal
    ensures { told (λ size. size) (Err result) ≡ coding.renumbered (told (λ size. size) (Err refusal)) }
{
    if refusal.reason == Reason::NoRoom {
        let reason = Reason::TextNoRoom;
        return Refusal { reason, place: 0 };
    }
    refusal
}

// Writes the image of a card of `count` instructions, the first 4,096 of which stand in `words`.
fn write_card(cells: usize, count: usize, words: &[u32], out: &mut [u8]) -> Result<usize, Refusal>
    requires { 4096 ≤ length words.now }
    ensures { WroteCard cells count words.now out.old result out.new }
{
    if MOST < count {
        let (reason, place) = (Reason::Sizes, layout::CELLS);
        return Err(Refusal { reason, place });
    }
    writer::write(cells, &words[..count], out).map_err(renumbered)
}

// Writes the image of the card whose text is given to the start of `out`, and answers its size in bytes.
pub fn import(text: &[u8], out: &mut [u8]) -> Result<usize, Refusal>
    ensures { Imports text.now out.old result out.new }
{
    let reason = Reason::TextHeader;
    let header = read_header(text).ok_or(Refusal { reason, place: 0 })?;
    let mut words = [0u32; MOST];
    let count = read_lines(text, header.next, &mut words)?;
    write_card(header.cells, count, &words, out)
}
