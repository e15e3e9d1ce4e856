// The lent values: what each thread ended with, then the count of each semaphore.
ghost use Rattle.std.specs.Prelude.{◌≡◌, ◌+◌, ◌*◌, ◌<◌, ◌≤◌, pos, get_or, length, set};
ghost use Rattle.machine.specs.State.{semaphore_count};

use machine::{Semaphore, Thread};

// What a thread ended with.
pub fn result(values: &[i32], t: Thread) -> i32
    requires { t.0 < length values.now }
    ensures { result ≡ get_or values.now t.0 (pos 0) }
{
    let at = t.0;
    values[at]
}

pub fn set_result(values: &mut [i32], t: Thread, v: i32)
    requires { t.0 < length values.old }
    ensures { values.new ≡ set values.old t.0 v }
{
    let at = t.0;
    values[at] = v;
}

pub fn count(values: &[i32], size: usize, k: Semaphore) -> i32
    requires size_bound { size ≤ 32 }
    requires values_len { length values.now ≡ 2 * size }
    requires k_lt_size { k.0 < size }
    ensures { result ≡ semaphore_count size values.now k.0 }
{
    let at = k.0;
    values[size + at]
}

pub fn set_count(values: &mut [i32], size: usize, k: Semaphore, v: i32)
    requires size_bound { size ≤ 32 }
    requires values_len { length values.old ≡ 2 * size }
    requires k_lt_size { k.0 < size }
    ensures { values.new ≡ set values.old (size + k.0) v }
{
    let at = k.0;
    values[size + at] = v;
}
