// The writer of card images. `write` is public: it takes any input, and refuses what is bad.
#![tactic(auto)]

ghost use Rattle.std.specs.Prelude.{◌≡◌, ◌+◌, ◌*◌, ◌≤◌, length};
ghost use Rattle.std.proofs.lemmas.List.Edits.{sets};
ghost use Rattle.writer.specs.Writing.{Wrote, header_of, words_bytes};

use card::{Reason, Refusal, layout, refuse_if};

// Writes the nine bytes before the instructions.
fn put_header(out: &mut [u8], cells: u32, n: u32)
    requires { (9 ≤ length out.old) × (n ≤ 4096) }
    ensures { out.new ≡ sets out.old 0 (header_of cells n) }
{
    instruction::put_word(out, 0, 5 + 4 * n);
    out[layout::VERSION] = layout::THE_VERSION;
    instruction::put_half(out, layout::CELLS, cells);
    instruction::put_half(out, layout::COUNT, n);
}

// Writes the instructions, from byte 9.
fn put_code(out: &mut [u8], list: &[u32])
    requires { 9 + 4 * length list.now ≤ length out.old }
    ensures { out.new ≡ sets out.old 9 (words_bytes list.now) }
{
    for (i, w) in list.iter().enumerate() {
        instruction::put_word(out, layout::CODE + 4 * i, *w);
    }
}

// Writes the image of a card with `cells` global cells and the instructions of `list`, each a word, and answers its
// size in bytes.
pub fn write(cells: usize, list: &[u32], out: &mut [u8]) -> Result<usize, Refusal>
    ensures { Wrote cells list.now out.old result out.new }
{
    let n = list.len();
    refuse_if(card::out_of_range(cells), Reason::Sizes, layout::CELLS)?;
    refuse_if(card::out_of_range(n), Reason::Sizes, layout::CELLS)?;
    match card::scan(&list, card::last_of(n)) {
        Ok(()) => {}
        // The place is the index in the list.
        Err(bad) => return Err(bad),
    }
    let size = layout::CODE + 4 * n;
    refuse_if(out.len() < size, Reason::NoRoom, 0)?;
    put_header(out, cells as u32, n as u32);
    put_code(out, list);
    Ok(size)
}
