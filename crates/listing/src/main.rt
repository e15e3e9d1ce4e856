// The printing program: reads a card image on standard input and prints its text, line by line, or the line of its
// refusal.
#![tactic(auto)]

use stdio::Program;

// Of a longer input only so many bytes are judged.
const INPUT_LIMIT: usize = 16394;

fn main(rt: HostRuntime) {
    let program = Program {
        name: b"listing",
        errors: rt.stderr(),
    };
    let mut input = [0u8; INPUT_LIMIT];
    if let Ok(image) = program.read(&mut rt.stdin(), &mut input) {
        program.report(print::text(&rt.stdout(), image));
    }
}
