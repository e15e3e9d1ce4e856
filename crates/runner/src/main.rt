// The runner: reads a card image on standard input, runs it and prints one line.
#![tactic(auto)]

use stdio::Program;

// Longer than the longest image.
const INPUT_LIMIT: usize = 65536;

fn main(rt: HostRuntime) {
    let program = Program {
        name: b"runner",
        errors: rt.stderr(),
    };
    let mut input = [0u8; INPUT_LIMIT];
    let Ok(image) = program.read(&mut rt.stdin(), &mut input) else {
        return;
    };
    let mut out = [0u8; line::ROOM];
    if let Some(length) = line::runner_line(image, &mut out) {
        program.report(rt.stdout().write_all(&out[..length]));
    }
}
