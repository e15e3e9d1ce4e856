// A framed stream on standard input: one image, or text, after the other, each behind its length in 4 bytes,
// big-endian.
use std::io::Read;
use stdio::Program;

// Reads so many bytes to the start of the buffer. None where it has no room for them, or the stream ends or can't be
// read before.
fn fill<'a>(
    program: &Program<impl Print>,
    input: &mut impl Read,
    buffer: &'a mut [u8],
    length: usize,
) -> Option<&'a [u8]> {
    let part = buffer.get_mut(..length)?;
    let read = program.read(input, part).ok();
    read.filter(|bytes| bytes.len() == length)
}

// Reads the next frame to the start of the buffer. None where the stream has ended, or can't be read.
pub fn next<'a>(
    program: &Program<impl Print>,
    input: &mut impl Read,
    buffer: &'a mut [u8],
) -> Option<&'a [u8]> {
    let mut head = [0u8; 4];
    fill(program, input, &mut head, 4)?;
    let frame = fill(program, input, buffer, u32::from_be_bytes(head) as usize);
    if frame.is_none() {
        program.complain(b"compared: a frame is too long, or cut short\n");
    }
    frame
}
