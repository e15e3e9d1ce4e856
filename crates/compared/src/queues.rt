// The queues, read from the lent tables.
use crate::layout::{LINE, TABLES};
use std::fmt;
use std::fmt::{Display, Formatter};

// A queue: those of the line that are at the place, in the line's order.
#[derive(Clone, Copy)]
pub struct Queue<'a> {
    pub tables: &'a [usize; TABLES],
    pub place: usize,
}

impl Display for Queue<'_> {
    fn fmt<W: fmt::Write>(&self, f: &mut Formatter<W>) -> fmt::Result {
        let tables = self.tables;
        let waiting = tables[LINE..]
            .iter()
            .filter(|t| tables.get(**t) == Some(&self.place));
        write!(f, "[")?;
        for (i, t) in waiting.enumerate() {
            if 0 < i {
                write!(f, ",")?;
            }
            write!(f, "{t}")?;
        }
        write!(f, "]")
    }
}
