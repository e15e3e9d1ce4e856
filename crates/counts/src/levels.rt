// The number of those who wait for a semaphore is the larger of 0 and minus its count.
ghost use Rattle.std.specs.Prelude.{◌≡◌, ◌*◌, ◌<◌, length};
ghost use Rattle.machine.specs.Lists.{every};
ghost use Rattle.machine.specs.Tables.{tables_of};
ghost use Rattle.machine.specs.WellFormed.{level_fits, shortfall};
ghost use Rattle.cells.specs.Contract.{Made};
ghost use Rattle.tables.specs.Good.{Good};

use machine::{Registers, Semaphore};

fn shortfall(v: i32) -> usize
    ensures { result ≡ shortfall v }
{
    if v < 0 {
        arithmetic::magnitude(v) as usize
    } else {
        0
    }
}

fn level_fits(tables: &[usize], values: &[i32], size: usize, k: Semaphore) -> bool
    requires good { Good size tables.now }
    requires values_len { length values.now ≡ 2 * size }
    requires k_lt_size { k.0 < size }
    ensures { result ≡ level_fits size (tables_of size tables.now) values.now k.0 }
{
    let waiting = tables::waiting(tables, size, tables::at_semaphore(size, k));
    waiting == shortfall(tables::count(values, size, k))
}

pub fn levels_fit(r: Registers, tables: &[usize], values: &[i32], size: usize) -> bool
    requires good { Good size tables.now }
    requires made { Made size r }
    requires values_len { length values.now ≡ 2 * size }
    ensures { result ≡ every r.semaphores (level_fits size (tables_of size tables.now) values.now) }
{
    (0..r.semaphores).all(|k| level_fits(tables, values, size, Semaphore(k)))
}
