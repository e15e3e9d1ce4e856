// From an input to the line that says what came of it.
ghost use Rattle.std.specs.Prelude.{◌≤◌, length, ◌≡◌};
ghost use Rattle.outcome.specs.Outcome.{Gives};
ghost use Rattle.machine.specs.Calls.{boxed, told};
ghost use Rattle.machine.specs.Registers.{zeros};
ghost use Rattle.machine.specs.Runner.{is_refused, line_of, runner_call, runner_in};
ghost use Rattle.machine.specs.Size.{full};
ghost use Rattle.text.specs.Lines.{Puts};
ghost use Rattle.line.specs.Line.{Prints, PutsLine};

use crate::words::{put_fault, put_halted, put_refused, put_state};
use cma::Outcome;
use machine::Answer;

// The bytes that a lent buffer must have.
pub const ROOM: usize = 90;

// Of a longer input only so many bytes are judged.
const INPUT_LIMIT: usize = 16394;

const STEP_LIMIT: usize = 1000000;

// The line of an answer.
fn put_answer(
    out: &mut [u8],
    answer: Answer,
    steps: usize,
    thread: usize,
    tables: &[usize],
    values: &[i32],
) -> usize
    requires room { 90 ≤ length out.old }
    requires all_tables { 32 ≤ length tables.now }
    requires all_values { 32 ≤ length values.now }
    ensures puts_line { PutsLine answer steps thread tables.now values.now out.old
        out.new result }
    ensures upper_bound { result ≤ 90 }
{
    match answer {
        Answer::Halted => put_halted(out, steps, tables, values),
        Answer::Running => put_state(out, b"running", steps),
        Answer::Stuck => put_state(out, b"stuck", steps),
        Answer::Faulted { number, place } => put_fault(out, number, thread, place, steps),
        Answer::Refused(refusal) => put_refused(out, refusal.reason.number(), refusal.place),
    }
}

fn is_refused(answer: Answer) -> bool
    ensures { result ≡ is_refused (told answer) }
{
    matches!(answer, Answer::Refused(_))
}

// Sets a card up in lent memory and runs it.
fn run_card(image: &[u8], store: &mut [i32], tables: &mut [usize], values: &mut [i32]) -> Outcome
    ensures { Gives (runner_in full image.now
        (boxed store.old tables.old values.old zeros)) result
        store.new tables.new values.new }
{
    let up = cma::set_up(image, store, tables, values);
    if is_refused(up.answer) {
        return up;
    }
    cma::run(image, store, tables, values, up.registers, STEP_LIMIT)
}

// Runs a card in memory of its own and writes its line.
fn put_line(image: &[u8], out: &mut [u8]) -> usize
    requires { 90 ≤ length out.old }
    ensures puts { Puts (line_of full (runner_call full image.now)) out.old 0 out.new result }
    ensures upper_bound { result ≤ 90 }
{
    let mut store = [0i32; 8192];
    let mut tables = [0usize; 224];
    let mut values = [0i32; 64];
    let o = run_card(image, &mut store, &mut tables, &mut values);
    put_answer(out, o.answer, o.count, o.registers.thread, &tables, &values)
}

// The line that the runner prints for what stands on its input, written to the start of `out`: its length with its line
// feed, or none where the buffer has under 90 bytes.
pub fn runner_line(input: &[u8], out: &mut [u8]) -> Option<usize>
    ensures { Prints input.now out.old result out.new }
{
    if out.len() < ROOM {
        return None;
    }
    let judged = &input[..INPUT_LIMIT.min(input.len())];
    Some(put_line(judged, out))
}
