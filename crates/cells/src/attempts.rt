// Attempts: the context past an instruction, and the registers after it was tried.
ghost use Rattle.std.specs.Prelude.{◌≡◌, ◌<◌};
ghost use Rattle.cells.specs.Attempts.{past_of};
ghost use Rattle.cells.specs.Contract.{settled_of};

use machine::{Context, Fault, Registers};

pub fn past(r: Registers) -> Context
    requires { r.pc < 4096 }
    ensures { result ≡ past_of r }
{
    Context {
        pc: r.pc + 1,
        cells: r.cells,
        fp: r.fp,
    }
}

// A fault leaves everything else as it was, PC too.
pub fn settled(r: Registers, after: Result<Registers, Fault>) -> Registers
    ensures { result ≡ settled_of r after }
{
    after.unwrap_or_else(|fault| r.stop(fault.number()))
}
