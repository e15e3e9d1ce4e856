// The reader of card images.
ghost use Rattle.std.specs.Prelude.{◌≡◌, ◌+◌, ◌*◌, ◌≤◌, ◌<◌, length};
ghost use Rattle.card.specs.Image.{CodePart, Headed, last_of, length_wrong, out_of_range, read_code, read_of, sizes_wrong};
ghost use Rattle.card.specs.Result.{told};

use crate::checking::scan;
use crate::layout;
use crate::refusals::{Reason, Refusal, refuse_if};
use crate::word_list::CodeWords;

// Global cells and instructions are each 1 to 4,096.
pub fn out_of_range(x: usize) -> bool
    ensures { result ≡ out_of_range x }
{
    x < 1 || 4096 < x
}

fn wrong_length(image: &[u8]) -> bool
    ensures { result ≡ length_wrong image.now }
{
    if image.len() < 4 {
        return true;
    }
    let following = instruction::word_at(image, 0) as usize;
    4 + following != image.len() || following < 5
}

fn wrong_sizes(image: &[u8]) -> bool
    requires { 9 ≤ length image.now }
    ensures { result ≡ sizes_wrong image.now }
{
    let cells = instruction::half_at(image, layout::CELLS) as usize;
    let n = instruction::half_at(image, layout::COUNT) as usize;
    let following = instruction::word_at(image, 0) as usize;
    out_of_range(cells) || out_of_range(n) || following != 5 + 4 * n
}

// The number of the last of n instructions.
pub fn last_of(n: usize) -> i32
    requires { n ≤ 4096 }
    ensures { result ≡ last_of n }
{
    n as i32 - 1
}

// Reads the instructions of an image whose header is right.
fn read_code(image: &[u8]) -> Result<u32, Refusal>
    requires { Headed image.now }
    ensures { told (λ cells. cells) result ≡ read_code image.now }
{
    let n = instruction::half_at(image, layout::COUNT) as usize;
    match scan(&CodeWords(&image[layout::CODE..]), last_of(n)) {
        Ok(()) => Ok(instruction::half_at(image, layout::CELLS)),
        Err(bad) => Err(Refusal {
            place: layout::CODE + 4 * bad.place,
            ..bad
        }),
    }
}

// The number of global cells that the card asks for.
pub fn read(image: &[u8]) -> Result<u32, Refusal>
    ensures { told (λ cells. cells) result ≡ read_of image.now }
{
    refuse_if(wrong_length(image), Reason::Length, 0)?;
    refuse_if(
        image[layout::VERSION] != layout::THE_VERSION,
        Reason::Version,
        layout::VERSION,
    )?;
    refuse_if(wrong_sizes(image), Reason::Sizes, layout::CELLS)?;
    read_code(image)
}

// The image's own bytes from byte 9, which are the instructions; the empty part where the image is refused.
pub fn code_part(image: &[u8]) -> &[u8]
    ensures { CodePart image.entry result }
{
    match read(image) {
        Ok(_) => &image[layout::CODE..],
        Err(_) => &image[..0],
    }
}
