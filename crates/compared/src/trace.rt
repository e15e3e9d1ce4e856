// The states of a machine after set-up and after every step.
use crate::lent::Lent;
use crate::state_line::State;
use cma::Outcome;
use machine::Answer;
use std::io::Result;
use stdio::Program;

// So many steps of a card are shown.
const STEPS: usize = 300;

// Prints what a call left, or its refusal.
fn print_outcome(output: &impl Print, o: Outcome, lent: &Lent) -> Result<()> {
    let registers = o.registers;
    match o.answer {
        Answer::Refused(refusal) => print::refusal(output, refusal.reason.number(), refusal.place),
        _ => println!(output; "{}", State { registers, lent }),
    }
}

fn print_states(output: &impl Print, image: &[u8]) -> Result<()> {
    let mut lent = Lent::new();
    let mut o = lent.set_up(image);
    print_outcome(output, o, &lent)?;
    for _ in 0..STEPS {
        let Answer::Running = o.answer else {
            return Ok(());
        };
        o = lent.step(image, o.registers);
        print_outcome(output, o, &lent)?;
    }
    Ok(())
}

// The lines of the card at a place in the stream. Where a state can't be written, it says so, and the next card comes.
pub fn states(
    program: &Program<impl Print>,
    output: &impl Print,
    index: usize,
    image: &[u8],
) -> Result<()> {
    println!(output; "card {index}")?;
    program.report(print_states(output, image));
    Ok(())
}
