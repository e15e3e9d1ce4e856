// Whether lent tables fit the registers. Inner, but the engine asks it of whatever it was lent, so nothing is
// required of the contents.
#![tactic(auto)]

ghost use Rattle.std.specs.Prelude.{◌≡◌, ◌≤◌};
ghost use Rattle.machine.specs.WellFormed.{tables_fit, well_formed};

mod owners;
mod places;
mod state;

use machine::{Registers, sizes};

fn sizes_fit(tables: &[usize], values: &[i32], size: usize) -> bool
    requires { size ≤ 32 }
    ensures { result ≡ tables_fit size tables.now values.now }
{
    tables.len() == sizes::TABLES * size && values.len() == sizes::VALUES * size
}

// Each part is asked only where those before it passed: a number that fails its range is never an index.
pub fn well_formed(r: Registers, tables: &[usize], values: &[i32], size: usize) -> bool
    requires { size ≤ 32 }
    ensures { result ≡ well_formed size r tables.now values.now }
{
    if !sizes_fit(tables, values, size) {
        return false;
    }
    if !ranges::registers_fit(r, size) {
        return false;
    }
    if !ranges::line_fits(tables, size) {
        return false;
    }
    places::threads_fit(r, tables, size)
        && (owners::owners_fit(r, tables, size)
            && (counts::levels_fit(r, tables, values, size)
                && (ranges::fault_fits(r) && state::state_fits(r, tables, size))))
}
