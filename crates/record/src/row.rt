//! Rows: committed transactions, as logs hold them.
ghost use Rattle.std.specs.Prelude.{◌≡◌};
ghost use Rattle.record.specs.Rows.{record_of, row_of, updates_of};
ghost use Rattle.record.specs.Updates.{is_covered};

use crate::clock::Clock;
use crate::kind::RecordKind;
use crate::message::Record;

/// One change of one object. For a regular object the element is 0, and the operand is the word.
#[derive(Clone, Copy, PartialEq, Eq, Debug)]
pub struct Update {
    pub object: u16,
    pub element: u16,
    pub operand: i32,
}

impl Update {
    /// What stands in the places that are not used.
    pub const NONE: Update = Update {
        object: 0,
        element: 0,
        operand: 0,
    };
}

/// A committed transaction: where it was started and under which serial, its number among the rows of its home,
/// what its home had committed when it started, and its updates, of which `count` are used. Its memory is fixed, and it is copied, which the kit's `ArrayVec` is not.
#[derive(Clone, Copy, PartialEq, Eq, Debug)]
pub struct Row {
    pub home: u8,
    pub serial: u32,
    pub number: u16,
    pub start: Clock,
    pub count: u8,
    pub updates: [Update; 4],
}

impl Row {
    /// The row of zeros, which stands past the end of a log.
    pub const ZERO: Row = Row {
        home: 0,
        serial: 0,
        number: 0,
        start: Clock::ZERO,
        count: 0,
        updates: [Update::NONE; 4],
    };

    /// The updates that are used.
    pub fn updates(&self) -> &[Update]
        ensures { result.now ≡ updates_of self.now }
    {
        let count = (self.count as usize).min(4);
        &self.updates[..count]
    }

    /// The record of this kind that carries the row to the receiver: a method, since it takes these two.
    pub fn to_record(&self, kind: RecordKind, receiver: u8) -> Record
        ensures answer { result ≡ record_of kind receiver self.now }
        ensures back { row_of result ≡ self.now }
    {
        Record {
            kind,
            sender: self.home,
            receiver,
            detail: self.count,
            serial: self.serial,
            number: self.number,
            start: self.start,
            updates: self.updates,
        }
    }
}

impl Clock {
    /// Whether the row is among those that the clock counts.
    pub fn covers_row(&self, row: &Row) -> bool
        ensures { result ≡ is_covered self.now row.now }
    {
        self.covers(row.home, row.number)
    }
}

/// The row that a record carries.
impl From<Record> for Row {
    ghost from_gives = { λ m r. r ≡ row_of m };

    fn from(record: Record) -> Row
        ensures answer { result ≡ row_of «record» }
        ensures back { record_of «record».kind «record».receiver result ≡ «record» }
    {
        let Record { start, updates, .. } = record;
        Row {
            home: record.sender,
            serial: record.serial,
            number: record.number,
            start,
            count: record.detail,
            updates,
        }
    }
}
