// The state of the machine against its threads.
ghost use Rattle.std.specs.Prelude.{◌≡◌};
ghost use Rattle.machine.specs.Tables.{tables_of};
ghost use Rattle.machine.specs.WellFormed.{any_ready, state_fits};
ghost use Rattle.tables.specs.Good.{Good};

use machine::{Registers, Thread, states};

fn any_ready(tables: &[usize], size: usize) -> bool
    requires { Good size tables.now }
    ensures { result ≡ any_ready size (tables_of size tables.now) }
{
    (0..size).any(|t| tables::place(tables, size, Thread(t)) == tables::READY)
}

pub fn state_fits(r: Registers, tables: &[usize], size: usize) -> bool
    requires { Good size tables.now }
    ensures { result ≡ state_fits size r (tables_of size tables.now) }
{
    if r.thread != size {
        return r.state == states::RUNNING
            || (r.state == states::FAULTED || r.state == states::HALTED);
    }
    if r.state == states::STUCK {
        return !any_ready(tables, size) && tables::any_live(tables, size);
    }
    r.state == states::HALTED && !tables::any_live(tables, size)
}
