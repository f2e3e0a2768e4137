//! What was counted.
use record::{Denial, Fault};
use std::fmt;
use std::num::Saturating;
use std::ops::AddAssign;

#[derive(Clone, Copy, Default)]
pub struct Tally {
    pub appends: Saturating<u32>,
    pub kept: Saturating<u32>,
    pub bad: Saturating<u32>,
    pub full: Saturating<u32>,
    pub differences: Saturating<u32>,
}

impl Tally {
    /// Counts an append by its answer.
    pub fn note(&mut self, answer: Result<(), Fault>) {
        self.appends += 1;
        match answer {
            Ok(()) => self.kept += 1,
            Err(Fault::Record(_)) => self.bad += 1,
            Err(Fault::Keeper(Denial::LogFull)) => self.full += 1,
            Err(_) => {}
        }
    }

    pub fn differ(&mut self) {
        self.differences += 1;
    }
}

impl AddAssign for Tally {
    fn add_assign(&mut self, more: Tally) {
        self.appends += more.appends;
        self.kept += more.kept;
        self.bad += more.bad;
        self.full += more.full;
        self.differences += more.differences;
    }
}

impl fmt::Display for Tally {
    fn fmt<W: fmt::Write>(&self, f: &mut fmt::Formatter<W>) -> fmt::Result {
        write!(
            f,
            "{} appends, {} rows kept, {} denied with 3, {} denied with 11, {} differences",
            self.appends, self.kept, self.bad, self.full, self.differences
        )
    }
}
