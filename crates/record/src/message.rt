//! One record of the bus, as a value.
use crate::clock::Clock;
use crate::kind::RecordKind;
use crate::row::Update;

/// A record, field by field. `detail` is byte 3, a number as on the bus: how many updates are used, or a vote, 1 for yes.
#[derive(Clone, Copy, PartialEq, Eq, Debug)]
pub struct Record {
    pub kind: RecordKind,
    pub sender: u8,
    pub receiver: u8,
    pub detail: u8,
    pub serial: u32,
    pub number: u16,
    pub start: Clock,
    pub updates: [Update; 4],
}

/// The receiver of a ROW record: no board.
pub const NOBODY: u8 = 255;
