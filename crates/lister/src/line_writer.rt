// The listing writer: a lent buffer, which it fills piece by piece, and the place that it has reached. Inner. Each
// method takes the struct apart and calls a function on the slice and the number; `put_one` has plain parameters, and
// serves every other caller.
ghost use Rattle.std.specs.Prelude.{◌+◌, ◌≤◌, length, ◌≡◌};
ghost use Rattle.text.specs.Lines.{Puts};
ghost use Rattle.lister.specs.Filling.{line_room, line_text, lined, piece_room};

use crate::lines::{Piece, piece_at};

#[derive(Drop)]
pub struct Writer<'a> {
    pub out: &'a mut [u8],
    pub at: usize,
}

impl<'a> Writer<'a> {
    // At the start of a buffer.
    pub fn new(out: &'a mut [u8]) -> Writer<'a>
        ensures lent { result.out ≡ out.entry }
        ensures start { result.at ≡ 0 }
    {
        Writer { out, at: 0 }
    }

    // Puts a piece of a line at the place reached.
    pub fn put(&mut self, piece: Piece, line: usize, content: u32)
        requires { self.old.at + piece_room ≤ length self.old.out.now }
        ensures puts { self.new ≡ lined self.old piece line content }
        ensures upper_bound { self.new.at ≤ self.old.at + piece_room }
    {
        self.at = piece_at(&mut *self.out, self.at, piece, line, content);
    }

    // The place reached.
    pub fn place(&self) -> usize
        ensures { result ≡ self.now.at }
    {
        self.at
    }
}

// Puts the pieces of a line at the start of a buffer, one after the other, and answers the place reached.
pub fn put_one(out: &mut [u8], line: usize, content: u32) -> usize
    requires { line_room ≤ length out.old }
    ensures puts { Puts (line_text line content) out.old 0 out.new result }
    ensures upper_bound { result ≤ line_room }
{
    let mut w = Writer::new(out);
    w.put(Piece::Start, line, content);
    w.put(Piece::Content, line, content);
    w.put(Piece::End, line, content);
    w.place()
}
