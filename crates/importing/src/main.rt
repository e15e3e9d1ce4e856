// The way back: reads a card's text on standard input and writes its image, or the line of its refusal.
#![tactic(auto)]

use std::io::Result;
use stdio::Program;

// Room for the first line and for 10,000 more, as many as there are addresses, of up to 26 bytes; a card's longest
// line has 20. A text that fills it may go on, and isn't judged: its last line may be cut.
const INPUT_LIMIT: usize = 262144;

// The image, or the line of the text's refusal.
fn print(output: &impl Print, text: &[u8]) -> Result<()> {
    let mut image = [0u8; print::LONGEST_IMAGE];
    match importer::import(text, &mut image) {
        Ok(size) => output.write_all(print::start(&image, size)?),
        Err(refusal) => print::refusal(output, refusal.reason.number(), refusal.place),
    }
}

fn main(rt: HostRuntime) {
    let program = Program {
        name: b"importing",
        errors: rt.stderr(),
    };
    let mut input = [0u8; INPUT_LIMIT];
    let Ok(text) = program.read(&mut rt.stdin(), &mut input) else {
        return;
    };
    if text.len() == INPUT_LIMIT {
        program.complain(b"importing: the text has more than 262143 bytes\n");
        return;
    }
    program.report(print(&rt.stdout(), text));
}
