// Runs the paper's sessions and both sides of every limit, and prints a line for each: a label and the runner's line,
// or what the calls answer. Most cards are text, read from standard input (at most 65,536 bytes): a session in code
// costs half a second of proof.
#![tactic(auto)]

mod assembler;
mod calls;
mod images;
mod naming;
mod show;

use stdio::Program;

const INPUT_LIMIT: usize = 65536;

fn main(rt: HostRuntime) {
    images::refusals(&rt);
    calls::sessions(&rt);
    let program = Program {
        name: b"sessions",
        errors: rt.stderr(),
    };
    let mut input = [0u8; INPUT_LIMIT];
    let text = program
        .read(&mut rt.stdin(), &mut input)
        .unwrap_or_else(|came| came);
    assembler::sessions(&rt, text);
}
