// The lines, word by word, from the first byte of a buffer that has room for the longest. Inner.
ghost use Rattle.std.specs.Prelude.{◌+◌, ◌≤◌, length, [], ◌∷◌};
ghost use Rattle.machine.specs.Calls.{boxed};
ghost use Rattle.machine.specs.Registers.{zeros};
ghost use Rattle.machine.specs.Runner.{fault_word, halted_word, refused_word, result_of};
ghost use Rattle.machine.specs.Size.{full};
ghost use Rattle.text.specs.Decimal.{decimal};
ghost use Rattle.text.specs.Lines.{Puts, line};

use machine::Thread;

// A space and a number.
fn put_number(out: &mut [u8], at: usize, n: usize) -> usize
    requires { at + 21 ≤ length out.old }
    ensures puts { Puts (32 ∷ decimal n) out.old at out.new result }
    ensures upper_bound { result ≤ at + 21 }
{
    let next = text::put_byte(out, at, 32);
    text::put_decimal(out, next, n as u64)
}

// A word and a number: `stuck STEPS`, `running STEPS`.
pub fn put_state(out: &mut [u8], word: &[u8], steps: usize) -> usize
    requires room { 90 ≤ length out.old }
    requires short_word { length word.now ≤ 8 }
    ensures puts { Puts (line word.now (decimal steps ∷ [])) out.old 0 out.new result }
    ensures upper_bound { result ≤ 90 }
{
    let mut at = text::put_bytes(out, 0, word);
    at = put_number(out, at, steps);
    text::put_byte(out, at, 10)
}

pub fn put_refused(out: &mut [u8], number: usize, place: usize) -> usize
    requires { 90 ≤ length out.old }
    ensures puts { Puts (line refused_word (decimal number ∷ decimal place ∷ [])) out.old 0 out.new result }
    ensures upper_bound { result ≤ 90 }
{
    let mut at = text::put_bytes(out, 0, b"refused");
    at = put_number(out, at, number);
    at = put_number(out, at, place);
    text::put_byte(out, at, 10)
}

pub fn put_fault(out: &mut [u8], number: usize, thread: usize, place: usize, steps: usize) -> usize
    requires { 90 ≤ length out.old }
    ensures puts { Puts (line fault_word (decimal number ∷ decimal thread ∷ decimal place ∷ decimal steps ∷ []))
        out.old 0 out.new result }
    ensures upper_bound { result ≤ 90 }
{
    let mut at = text::put_bytes(out, 0, b"fault");
    at = put_number(out, at, number);
    at = put_number(out, at, thread);
    at = put_number(out, at, place);
    at = put_number(out, at, steps);
    text::put_byte(out, at, 10)
}

// Thread 0's result, or `-` where it has not ended.
fn put_result(out: &mut [u8], at: usize, tables: &[usize], values: &[i32]) -> usize
    requires room { at + 21 ≤ length out.old }
    requires all_tables { 32 ≤ length tables.now }
    requires all_values { 32 ≤ length values.now }
    ensures puts { Puts (result_of full (boxed [] tables.now values.now zeros)) out.old at
        out.new result }
    ensures upper_bound { result ≤ at + 21 }
{
    if tables::has_ended(tables, 32, Thread(0)) {
        text::put_signed(out, at, cells::read(values, 0))
    } else {
        text::put_byte(out, at, 45)
    }
}

pub fn put_halted(out: &mut [u8], steps: usize, tables: &[usize], values: &[i32]) -> usize
    requires room { 90 ≤ length out.old }
    requires all_tables { 32 ≤ length tables.now }
    requires all_values { 32 ≤ length values.now }
    ensures puts { Puts (line halted_word
        (decimal steps ∷ result_of full (boxed [] tables.now values.now zeros) ∷ []))
        out.old 0 out.new result }
    ensures upper_bound { result ≤ 90 }
{
    let mut at = text::put_bytes(out, 0, b"halted");
    at = put_number(out, at, steps);
    at = text::put_byte(out, at, 32);
    at = put_result(out, at, tables, values);
    text::put_byte(out, at, 10)
}
