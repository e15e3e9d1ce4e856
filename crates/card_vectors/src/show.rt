// Lines that say what the reader and the writer answer.
use card::Refusal;

// A text that can't be written is missing from what is compared.
fn text(rt: &impl Print, s: &[u8]) {
    let _ = rt.write_all(s);
}

fn number(rt: &impl Print, n: u64) {
    let _ = rt.print(n);
}

fn refusal(rt: &impl Print, r: Refusal) {
    text(rt, b"refused ");
    number(rt, r.reason.number() as u64);
    text(rt, b" at ");
    number(rt, r.place as u64);
}

// The reader's answer, and the size of the code part.
pub fn reading(rt: &impl Print, label: &[u8], image: &[u8]) {
    text(rt, label);
    text(rt, b": ");
    match card::read(image) {
        Ok(cells) => {
            text(rt, b"accepted, cells ");
            number(rt, cells as u64);
        }
        Err(r) => refusal(rt, r),
    }
    text(rt, b", code of ");
    number(rt, card::code_part(image).len() as u64);
    text(rt, b"\n");
}

fn byte(rt: &impl Print, b: u8) {
    let _ = print!(rt; "{b:02x}");
}

// The bytes of a buffer, in hexadecimal.
fn dump(rt: &impl Print, s: &[u8]) {
    for b in s {
        byte(rt, *b);
    }
}

// The writer's answer, and what a short buffer holds afterwards.
pub fn writing(rt: &impl Print, label: &[u8], cells: usize, list: &[u32], out: &mut [u8]) {
    text(rt, label);
    text(rt, b": ");
    match writer::write(cells, list, out) {
        Ok(size) => {
            text(rt, b"written ");
            number(rt, size as u64);
        }
        Err(r) => refusal(rt, r),
    }
    if out.len() <= 24 {
        text(rt, b", buffer ");
        dump(rt, out);
    }
    text(rt, b"\n");
}
