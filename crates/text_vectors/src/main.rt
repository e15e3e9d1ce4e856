// Imports texts and prints what comes of each: the image in hexadecimal, or the refusal. They stand on standard input
// (at most 65,536 bytes), a line each: a label, a colon, a space and the text, in which `/` stands for a line feed,
// `~` for a carriage return and `>` for a tab. A line without a colon is a remark, and is printed as it is.
#![tactic(auto)]

use stdio::Program;

const INPUT_LIMIT: usize = 65536;

const LONGEST_TEXT: usize = 4096;

fn decoded(b: u8) -> u8 {
    match b {
        b'/' => b'\n',
        b'~' => b'\r',
        b'>' => b'\t',
        _ => b,
    }
}

// What can't be written is missing from what is compared.
fn put(rt: &impl Print, text: &[u8]) {
    let _ = rt.write_all(text);
}

// What comes of a text as it stands in the line: nothing, where there is no room for it.
fn print_text(rt: &impl Print, text: &[u8]) {
    let mut buffer = [0u8; LONGEST_TEXT];
    if let Some(out) = buffer.get_mut(..text.len()) {
        for (to, from) in out.iter_mut().zip(text) {
            *to = decoded(*from);
        }
        let _ = print::imported(rt, out);
    }
}

fn print_line(rt: &impl Print, line: &[u8]) {
    let colon = line.iter().position(|b| *b == b':').unwrap_or(line.len());
    let (label, rest) = line.split_at(colon);
    put(rt, label);
    // Behind the colon and the space.
    match rest.get(2..) {
        Some(text) => {
            put(rt, b": ");
            print_text(rt, text);
        }
        None => put(rt, b"\n"),
    }
}

fn main(rt: HostRuntime) {
    let program = Program {
        name: b"text_vectors",
        errors: rt.stderr(),
    };
    let mut input = [0u8; INPUT_LIMIT];
    let text = program
        .read(&mut rt.stdin(), &mut input)
        .unwrap_or_else(|came| came);
    for line in text.split_inclusive(|b| *b == b'\n') {
        print_line(&rt, line.strip_suffix(b"\n").unwrap_or(line));
    }
}
