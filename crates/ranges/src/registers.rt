// The registers' ranges. A chain of tests is grouped as in its definition.
ghost use Rattle.std.specs.Prelude.{◌≡◌, ◌≤◌};
ghost use Rattle.machine.specs.WellFormed.{counts_fit, fault_fits, frame_fits, in_range, registers_fit};

use machine::{Fault, Registers, sizes, states};

fn in_range(low: usize, high: usize, x: usize) -> bool
    ensures { result ≡ in_range low high x }
{
    low <= x && x <= high
}

fn counts_fit(r: Registers, size: usize) -> bool
    requires { size ≤ 32 }
    ensures { result ≡ counts_fit size r }
{
    in_range(1, size, r.threads)
        && (r.mutexes <= sizes::MUTEXES * size
            && (r.conditions <= sizes::CONDITIONS * size && r.semaphores <= size))
}

// PC, the number of cells and FP, of the registers or of a saved thread.
pub fn frame_fits(pc: usize, cells: usize, fp: usize) -> bool
    ensures { result ≡ frame_fits pc cells fp }
{
    pc <= sizes::INSTRUCTIONS
        && (cells <= sizes::STACK && in_range(sizes::NEW_FP, sizes::LAST_CELL, fp))
}

pub fn registers_fit(r: Registers, size: usize) -> bool
    requires { size ≤ 32 }
    ensures { result ≡ registers_fit size r }
{
    counts_fit(r, size)
        && (frame_fits(r.pc, r.cells, r.fp)
            && (in_range(1, sizes::SHARED * size, r.free)
                && (r.thread < r.threads || r.thread == size)))
}

// A faulted machine has the number of its fault, any other has none.
pub fn fault_fits(r: Registers) -> bool
    ensures { result ≡ fault_fits r }
{
    if r.state == states::FAULTED {
        Fault::try_from(r.fault).is_ok()
    } else {
        r.fault == 0
    }
}
