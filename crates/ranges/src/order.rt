// The line of threads, the last part of the tables: each thread once, and nothing else.
ghost use Rattle.std.specs.Prelude.{◌≡◌, ◌*◌, ◌≤◌, length};
ghost use Rattle.machine.specs.Tables.{tables_of};
ghost use Rattle.machine.specs.WellFormed.{line_fits};

// The line is as long as there are threads, so it holds each of them if it holds none twice.
pub fn line_fits(tables: &[usize], size: usize) -> bool
    requires size_bound { size ≤ 32 }
    requires tables_len { length tables.now ≡ 7 * size }
    ensures { result ≡ line_fits size (tables_of size tables.now).line }
{
    let mut seen = [false; 32];
    for &t in tables::line_of(tables, size) {
        if size <= t || seen[t] {
            return false;
        }
        seen[t] = true;
    }
    true
}
