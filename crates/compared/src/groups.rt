// The groups of a state line: each field of a group stands only for what has something to show.
use crate::layout;
use crate::lent::Lent;
use crate::queues::Queue;
use std::fmt;
use std::fmt::Formatter;
use std::ops::Range;

// ` m3:[1,2]`: the threads at each of the places of a kind, if there are any.
fn put_waiting<W: fmt::Write>(
    f: &mut Formatter<W>,
    lent: &Lent,
    letter: char,
    places: Range<usize>,
) -> fmt::Result {
    let tables = &lent.tables;
    for (number, place) in places.enumerate() {
        if tables[..layout::THREADS].contains(&place) {
            write!(f, " {letter}{number}:{}", Queue { tables, place })?;
        }
    }
    Ok(())
}

// ` o3=1`: a mutex's owner.
fn put_owners<W: fmt::Write>(f: &mut Formatter<W>, lent: &Lent) -> fmt::Result {
    for (m, owner) in lent.tables[layout::OWNERS..layout::LINE].iter().enumerate() {
        if *owner != layout::FREE {
            write!(f, " o{m}={owner}")?;
        }
    }
    Ok(())
}

// ` k3=-1`: the count of each semaphore that was made.
fn put_counts<W: fmt::Write>(f: &mut Formatter<W>, lent: &Lent, semaphores: usize) -> fmt::Result {
    let counts = &lent.values[layout::COUNTS..];
    for (k, count) in counts.iter().take(semaphores).enumerate() {
        write!(f, " k{k}={count}")?;
    }
    Ok(())
}

// ` s2=(5,3,2)`: the saved PC, cells and FP of each thread that is ready or waits.
fn put_saved<W: fmt::Write>(f: &mut Formatter<W>, lent: &Lent) -> fmt::Result {
    let tables = &lent.tables;
    for (t, place) in tables[..layout::THREADS].iter().enumerate() {
        if layout::READY <= *place {
            let pc = tables[layout::SAVED_PC + t];
            let cells = tables[layout::SAVED_CELLS + t];
            let fp = tables[layout::SAVED_FP + t];
            write!(f, " s{t}=({pc},{cells},{fp})")?;
        }
    }
    Ok(())
}

// ` v1=7`: the result of each thread that has ended.
fn put_results<W: fmt::Write>(f: &mut Formatter<W>, lent: &Lent) -> fmt::Result {
    let places = &lent.tables[..layout::THREADS];
    for (t, (place, value)) in places.iter().zip(&lent.values).enumerate() {
        if *place == layout::ENDED {
            write!(f, " v{t}={value}")?;
        }
    }
    Ok(())
}

pub fn put_groups<W: fmt::Write>(
    f: &mut Formatter<W>,
    lent: &Lent,
    semaphores: usize,
) -> fmt::Result {
    put_waiting(f, lent, 'm', layout::AT_MUTEX..layout::AT_CONDITION)?;
    put_waiting(f, lent, 'c', layout::AT_CONDITION..layout::AT_SEMAPHORE)?;
    put_waiting(f, lent, 'e', layout::AT_END..layout::PLACES)?;
    put_waiting(f, lent, 'p', layout::AT_SEMAPHORE..layout::AT_END)?;
    put_owners(f, lent)?;
    put_counts(f, lent, semaphores)?;
    put_saved(f, lent)?;
    put_results(f, lent)
}
