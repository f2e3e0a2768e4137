//! Where two logs differ, from each other or from what is expected.
use record::Fault;
use std::fmt;

/// What an append answered or is to answer.
#[derive(Clone, Copy, PartialEq, Eq)]
pub struct Verdict(pub Result<(), Fault>);

impl fmt::Display for Verdict {
    fn fmt<W: fmt::Write>(&self, f: &mut fmt::Formatter<W>) -> fmt::Result {
        match self.0 {
            Ok(()) => write!(f, "taken"),
            Err(fault) => write!(
                f,
                "denied with {} of layer {} at {}",
                fault.number(),
                fault.layer(),
                fault.place()
            ),
        }
    }
}

#[derive(Clone, Copy)]
pub enum Difference {
    Answer {
        expected: Verdict,
        table: Verdict,
        area: Verdict,
    },
    Count {
        expected: usize,
        table: usize,
        area: usize,
    },
    /// The row at the end is not the one that was appended.
    Last,
    Row {
        place: usize,
    },
}

impl fmt::Display for Difference {
    fn fmt<W: fmt::Write>(&self, f: &mut fmt::Formatter<W>) -> fmt::Result {
        match self {
            Difference::Answer {
                expected,
                table,
                area,
            } => write!(
                f,
                "{table} by the table, {area} by the area, to be {expected}"
            ),
            Difference::Count {
                expected,
                table,
                area,
            } => write!(
                f,
                "the table has {table} rows and the area {area}, not {expected}"
            ),
            Difference::Last => write!(f, "another row stands at the end"),
            Difference::Row { place } => write!(f, "the rows at {place} differ"),
        }
    }
}
