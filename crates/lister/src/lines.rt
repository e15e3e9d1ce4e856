// The pieces of a line, on a slice and a number. Inner.
ghost use Rattle.std.specs.Prelude.{◌%◌, ◌+◌, ◌≤◌, length, ◌≡◌};
ghost use Rattle.io.specs.Digits.{hex_digit_ascii};
ghost use Rattle.text.specs.Lines.{Puts};
ghost use Rattle.lister.specs.Filling.{content_text, operand_text, piece_room, piece_text, start_text};
ghost use Rattle.lister.specs.Text.{address_of};

// The pieces of a line. Line 0 is the header, line i + 1 that of instruction i.
#[derive(Clone, Copy, Debug, PartialEq, Eq)]
pub enum Piece {
    // Its first word.
    Start,
    // What it shows.
    Content,
    // Its line feed.
    End,
}

// Room for any piece, and for a line's three.
const PIECE_ROOM: usize = 33;

pub const ROOM: usize = 3 * PIECE_ROOM;

const LINE_FEED: u8 = b'\n';

// The last digit of a number.
fn digit(n: usize) -> u8
    ensures { result ≡ hex_digit_ascii (n % 10) }
{
    b'0' + (n % 10) as u8
}

// An address in four digits.
fn put_address(out: &mut [u8], at: usize, index: usize) -> usize
    requires { at + 4 ≤ length out.old }
    ensures { Puts (address_of index) out.old at out.new result }
{
    let digits = [
        digit(index / 1000),
        digit(index / 100),
        digit(index / 10),
        digit(index),
    ];
    text::put_bytes(out, at, &digits)
}

// The word `cells`, or an instruction's address.
fn put_start(out: &mut [u8], at: usize, line: usize) -> usize
    requires { at + 5 ≤ length out.old }
    ensures puts { Puts (start_text line) out.old at out.new result }
    ensures upper_bound { result ≤ at + 5 }
{
    if line == 0 {
        return text::put_bytes(out, at, b"cells");
    }
    put_address(out, at, line - 1)
}

// A space and the number of cells.
fn put_cells(out: &mut [u8], at: usize, cells: u32) -> usize
    requires { at + piece_room ≤ length out.old }
    ensures puts { Puts (content_text 0 cells) out.old at out.new result }
    ensures upper_bound { result ≤ at + piece_room }
{
    let next = text::put_bytes(out, at, b" ");
    text::put_decimal(out, next, u64::from(cells))
}

// A space and the operand, where an instruction has one.
fn put_operand(out: &mut [u8], at: usize, w: u32) -> usize
    requires { at + 22 ≤ length out.old }
    ensures puts { Puts (operand_text w) out.old at out.new result }
    ensures upper_bound { result ≤ at + 22 }
{
    if !names::has_operand(instruction::opcode(w)) {
        return at;
    }
    let next = text::put_byte(out, at, b' ');
    text::put_signed(out, next, instruction::operand(w))
}

// A space and what a line shows: the number of cells, or an instruction's name and operand.
fn put_content(out: &mut [u8], at: usize, line: usize, content: u32) -> usize
    requires { at + piece_room ≤ length out.old }
    ensures puts { Puts (content_text line content) out.old at out.new result }
    ensures upper_bound { result ≤ at + piece_room }
{
    if line == 0 {
        return put_cells(out, at, content);
    }
    let mut next = text::put_byte(out, at, b' ');
    next = names::put_name(out, next, instruction::opcode(content) as usize);
    put_operand(out, next, content)
}

// Puts a piece of a line from `at` on, and answers the place reached.
pub fn piece_at(out: &mut [u8], at: usize, piece: Piece, line: usize, content: u32) -> usize
    requires { at + piece_room ≤ length out.old }
    ensures puts { Puts (piece_text piece line content) out.old at out.new result }
    ensures upper_bound { result ≤ at + piece_room }
{
    match piece {
        Piece::Start => put_start(out, at, line),
        Piece::Content => put_content(out, at, line, content),
        Piece::End => text::put_byte(out, at, LINE_FEED),
    }
}
