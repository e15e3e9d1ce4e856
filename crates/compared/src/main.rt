// For each card, or text, of a framed stream on standard input, prints what the argument asks for. The second program
// prints the same, and the two are compared.
#![tactic(auto)]

mod frames;
mod groups;
mod hash;
mod layout;
mod lent;
mod queues;
mod state_line;
mod trace;

use std::env::Env;
use std::io::{Read, Result};
use stdio::Program;

// Longer than any card or text of a comparison.
const LONGEST_FRAME: usize = 98304;

// A proved loop has to end, and nothing says that a stream does: more frames than any comparison has.
const MOST_FRAMES: usize = 1000000000;

// What is printed for a frame.
#[derive(Clone, Copy)]
enum Show {
    // The runner's line of a card.
    Line,
    // The state after set-up and after every step of a card.
    States,
    // The text of a card.
    Listing,
    // The image of a text, in hexadecimal.
    Import,
}

// What a word asks for, if it is one of those.
fn meaning(word: &[u8]) -> Option<Show> {
    match word {
        b"lines" => Some(Show::Line),
        b"states" => Some(Show::States),
        b"listings" => Some(Show::Listing),
        b"imports" => Some(Show::Import),
        _ => None,
    }
}

// What the program's argument asks for.
fn asked(rt: &impl Env) -> Option<Show> {
    let mut word = [0u8; 16];
    let length = rt.arg(1, &mut word).ok()?;
    meaning(&word[..length])
}

// Prints what a frame comes to.
fn print_frame(
    program: &Program<impl Print>,
    output: &impl Print,
    show: Show,
    index: usize,
    frame: &[u8],
) -> Result<()> {
    match show {
        Show::Line => print::line(output, frame),
        Show::States => trace::states(program, output, index, frame),
        Show::Listing => print::text(output, frame),
        Show::Import => print::imported(output, frame),
    }
}

// The same of each frame.
fn print_all(
    program: &Program<impl Print>,
    input: &mut impl Read,
    output: &impl Print,
    show: Show,
) -> Result<()> {
    let mut buffer = [0u8; LONGEST_FRAME];
    for index in 0..MOST_FRAMES {
        let Some(frame) = frames::next(program, input, &mut buffer) else {
            return Ok(());
        };
        print_frame(program, output, show, index, frame)?;
    }
    Ok(())
}

fn main(rt: HostRuntime) {
    let program = Program {
        name: b"compared",
        errors: rt.stderr(),
    };
    let Some(show) = asked(&rt) else {
        program.complain(b"usage: compared lines|states|listings|imports\n");
        return;
    };
    program.report(print_all(&program, &mut rt.stdin(), &rt.stdout(), show));
}
