// Set-up, step and run on memory that a C program lends.
ghost use Rattle.std.specs.Prelude.{◌≡◌};
ghost use Rattle.machine.specs.Calls.{boxed, run_call, set_up, step_call, told};
ghost use Rattle.machine.specs.Registers.{zeros};
ghost use Rattle.machine.specs.Size.{full};
ghost use Rattle.lists.specs.Lists.{answer_list, list_of, registers_of};
ghost use Rattle.leprahoon.specs.Lists.{Reports};

use cma::Outcome;
use lists::{list_of, report_of, take_registers};

fn put_outcome(o: Outcome, registers: &mut [usize; 11], report: &mut [usize; 4])
    ensures registers_after { registers.new ≡ list_of o.registers }
    ensures report_after { report.new ≡ answer_list (told o.answer) o.count }
{
    let answer = o.answer;
    let r = o.registers;
    *registers = list_of(r);
    *report = report_of(answer, o.count);
}

#[unsafe(no_mangle)]
pub extern "C" fn leprahoon_set_up(
    image: &[u8],
    store: &mut [i32],
    tables: &mut [usize],
    values: &mut [i32],
    registers: &mut [usize; 11],
    report: &mut [usize; 4],
)
    ensures { Reports (set_up full image.now
        (boxed store.old tables.old values.old zeros))
        store.new tables.new values.new registers.new report.new }
{
    let o = cma::set_up(image, store, tables, values);
    put_outcome(o, registers, report);
}

#[unsafe(no_mangle)]
pub extern "C" fn leprahoon_step(
    image: &[u8],
    store: &mut [i32],
    tables: &mut [usize],
    values: &mut [i32],
    registers: &mut [usize; 11],
    report: &mut [usize; 4],
)
    ensures { Reports (step_call full image.now (boxed store.old tables.old
        values.old (registers_of registers.old)))
        store.new tables.new values.new registers.new report.new }
{
    let o = cma::step(image, store, tables, values, take_registers(registers));
    put_outcome(o, registers, report);
}

#[unsafe(no_mangle)]
pub extern "C" fn leprahoon_run(
    image: &[u8],
    store: &mut [i32],
    tables: &mut [usize],
    values: &mut [i32],
    registers: &mut [usize; 11],
    steps: usize,
    report: &mut [usize; 4],
)
    ensures { Reports (run_call full image.now steps (boxed store.old tables.old
        values.old (registers_of registers.old)))
        store.new tables.new values.new registers.new report.new }
{
    let o = cma::run(
        image,
        store,
        tables,
        values,
        take_registers(registers),
        steps,
    );
    put_outcome(o, registers, report);
}
