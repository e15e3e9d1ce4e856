// Each mutex's owner: a live thread, or none; none of a mutex that was not made.
ghost use Rattle.std.specs.Prelude.{◌≡◌, ◌*◌, ◌<◌};
ghost use Rattle.machine.specs.Lists.{every};
ghost use Rattle.machine.specs.Tables.{tables_of};
ghost use Rattle.machine.specs.WellFormed.{owner_fits};
ghost use Rattle.cells.specs.Contract.{Made};
ghost use Rattle.tables.specs.Good.{Good};

use machine::{Mutex, Registers, sizes};

fn owner_fits(r: Registers, tables: &[usize], size: usize, m: usize) -> bool
    requires good { Good size tables.now }
    requires made { Made size r }
    requires m_bound { m < 2 * size }
    ensures { result ≡ owner_fits size r (tables_of size tables.now) m }
{
    let Some(t) = tables::owner(tables, size, Mutex(m)) else {
        return true;
    };
    m < r.mutexes && (t.0 < r.threads && tables::lives(tables, size, t))
}

pub fn owners_fit(r: Registers, tables: &[usize], size: usize) -> bool
    requires good { Good size tables.now }
    requires made { Made size r }
    ensures { result ≡ every (2 * size) (owner_fits size r (tables_of size tables.now)) }
{
    (0..sizes::MUTEXES * size).all(|m| owner_fits(r, tables, size, m))
}
