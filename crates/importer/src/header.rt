// The first line of a text. Inner.
ghost use Rattle.std.specs.Prelude.{◌≡◌};
ghost use Rattle.words.specs.Words.{split};
ghost use Rattle.importer.specs.Coding.{coded_cells, coded_header};
ghost use Rattle.importer.specs.Forms.{header_read};

// The number of cells, as far as it matters, and the place of the next line.
#[derive(Clone, Copy)]
pub struct Header {
    pub cells: usize,
    pub next: usize,
}

// Reads the line without its line feed.
fn read_cells(line: &[u8]) -> Option<u64>
    ensures { result ≡ coded_cells (header_read (split 32 line.now)) }
{
    let (word, number) = words::split_once(line, b' ')?;
    if word != b"cells".as_slice() {
        return None;
    }
    digits::read_decimal(number)
}

pub fn read_header(text: &[u8]) -> Option<Header>
    ensures { result ≡ coded_header (split 10 text.now) }
{
    let (line, _) = words::split_once(text, b'\n')?;
    let cells = read_cells(line)? as usize;
    let next = line.len() + 1;
    Some(Header { cells, next })
}
