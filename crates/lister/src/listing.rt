// The call that lists one line of a card.
ghost use Rattle.std.specs.Prelude.{◌≤◌, length, ◌≡◌};
ghost use Rattle.card.specs.Image.{Headed, count_of};
ghost use Rattle.lister.specs.Listing.{Leaves, Lists, content_of, line_of};

use crate::line_writer::put_one;
use crate::lines::ROOM;
use card::{Reason, Refusal, layout, refuse_if};

// What a line shows: the number of cells, or an instruction's word.
fn content_of(image: &[u8], line: usize) -> u32
    requires headed { Headed image.now }
    requires line_bound { line ≤ count_of image.now }
    ensures { result ≡ content_of image.now line }
{
    if line == 0 {
        return instruction::half_at(image, layout::CELLS);
    }
    instruction::word_at(image, layout::CODE + 4 * (line - 1))
}

// Lists a line of an image that is accepted: it is made whole first, so that a refusal leaves `out` as it was.
fn list_accepted(image: &[u8], line: usize, out: &mut [u8]) -> Result<Option<usize>, Refusal>
    requires { Headed image.now }
    ensures { Leaves (line_of image.now line (length out.old)) image.now line
        out.old result out.new }
{
    let n = instruction::half_at(image, layout::COUNT) as usize;
    if n < line {
        return Ok(None);
    }
    let mut text = [0u8; ROOM];
    let length = put_one(&mut text, line, content_of(image, line));
    refuse_if(out.len() < length, Reason::TextNoRoom, 0)?;
    text::put_bytes(out, 0, &text[..length]);
    Ok(Some(length))
}

// Writes a line of a card's text to the start of `out`, and answers its length with the line feed: line 0 is the
// header, line i + 1 that of instruction i, and past the last there is none.
pub fn list_line(image: &[u8], line: usize, out: &mut [u8]) -> Result<Option<usize>, Refusal>
    ensures { Lists image.now line out.old result out.new }
{
    card::read(image)?;
    list_accepted(image, line, out)
}
