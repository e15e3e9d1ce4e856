// One cell of the store, by its address or by its place on a thread's stack. A stack is taken as a part of the store:
// so the compiler knows its start as one address, which stays while its thread runs.
ghost use Rattle.std.specs.Prelude.{◌≡◌, ◌<◌, pos, get_or, length, set};
ghost use Rattle.machine.specs.Size.{stack_at};
ghost use Rattle.cells.specs.Contract.{CellOf};

use machine::sizes;

pub fn peek(store: &[i32], size: usize, t: usize, i: usize) -> i32
    requires { CellOf size t i (length store.now) }
    ensures { result ≡ get_or store.now (stack_at size t i) (pos 0) }
{
    let at = sizes::STACK * (size + t);
    let stack = &store[at..];
    stack[i]
}

pub fn poke(store: &mut [i32], size: usize, t: usize, i: usize, v: i32)
    requires { CellOf size t i (length store.old) }
    ensures { store.new ≡ set store.old (stack_at size t i) v }
{
    let at = sizes::STACK * (size + t);
    let stack = &mut store[at..];
    stack[i] = v;
}

// A shared cell.
pub fn read(store: &[i32], a: usize) -> i32
    requires { a < length store.now }
    ensures { result ≡ get_or store.now a (pos 0) }
{
    store[a]
}

pub fn write(store: &mut [i32], a: usize, v: i32)
    requires { a < length store.old }
    ensures { store.new ≡ set store.old a v }
{
    store[a] = v;
}
