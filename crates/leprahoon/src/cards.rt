// The reader, the writer and the runner's line on buffers that a C program lends.
ghost use Rattle.std.specs.Prelude.{◌≡◌};
ghost use Rattle.card.specs.Image.{read_of};
ghost use Rattle.card.specs.Result.{report_of};
ghost use Rattle.leprahoon.specs.Lists.{PrintsLine, WroteList};

use lists::{length_of, list_of_result};

// Judges a card: the number and place of its refusal, or its global cells.
#[unsafe(no_mangle)]
pub extern "C" fn leprahoon_read(image: &[u8], report: &mut [usize; 3])
    ensures { report.new ≡ report_of (read_of image.now) }
{
    *report = list_of_result(card::read(image));
}

// Writes the image of a card from its instructions, each a word.
#[unsafe(no_mangle)]
pub extern "C" fn leprahoon_write(
    cells: usize,
    list: &[u32],
    out: &mut [u8],
    report: &mut [usize; 3],
)
    ensures { WroteList cells list.now out.old out.new report.new }
{
    *report = list_of_result(writer::write(cells, list, out));
}

// Runs a card as the runner does and writes its line; gives the line's length, or 0 where the buffer has under 90
// bytes.
#[unsafe(no_mangle)]
pub extern "C" fn leprahoon_line(input: &[u8], out: &mut [u8]) -> usize
    ensures { PrintsLine input.now out.old out.new result }
{
    length_of(line::runner_line(input, out))
}
