//! A log explained line by line, and counted.
ghost use Rattle.std.specs.Prelude.{◌≡◌, is_some, IfOk, OnOk};
ghost use Rattle.buslog.specs.Reports.{empty_report, noted, counted};
ghost use Rattle.buslog.specs.Verdicts.{of_line};

use crate::verdict::Verdict;
use std::alloc::{AllocError, Global};
use std::fmt;

/// How many lines were explained, and what they held. A count stays at its highest number once it is there.
#[derive(Clone, Copy)]
pub struct Report {
    lines: u64,
    records: u64,
    denied: u64,
    others: u64,
}

impl Report {
    pub fn new() -> Report
        ensures { result ≡ empty_report }
    {
        Report {
            lines: 0,
            records: 0,
            denied: 0,
            others: 0,
        }
    }

    /// One line more, which held this.
    pub fn note(&mut self, held: &Verdict)
        ensures { self.new ≡ noted self.old held.now }
    {
        self.lines = self.lines.saturating_add(1);
        match held {
            Verdict::Record(_) => self.records = self.records.saturating_add(1),
            Verdict::Denied(_) => self.denied = self.denied.saturating_add(1),
            Verdict::Other => self.others = self.others.saturating_add(1),
        }
    }

    /// The text for this line, with its number; none for a line that is skipped.
    pub fn explain(&mut self, heap: Global, line: &[u8]) -> Result<Option<String>, AllocError>
        ensures counted { OnOk result (self.new ≡ counted self.old (of_line line.now)) }
        ensures told { IfOk result (λ text. is_some text ≡ is_some (of_line line.now)) }
    {
        let Some(held) = Verdict::of_line(heap, line)? else {
            return Ok(None);
        };
        self.note(&held);
        Ok(Some(format!(in heap; "{} {held}", self.lines)?))
    }
}

impl fmt::Display for Report {
    fn fmt<W: fmt::Write>(&self, f: &mut fmt::Formatter<W>) -> fmt::Result {
        let Report {
            lines,
            records,
            denied,
            others,
        } = self;
        write!(
            f,
            "{lines} lines: {records} records, {denied} denied, {others} not record lines"
        )
    }
}
