//! Outgoing buffers, and the records that are expected in them.
use record::{Clock, Record, RecordKind, Row, Update};

/// The bytes that a call needs for its records.
pub(crate) type Buffer = [u8; 448];

/// What stands in a buffer before the call.
pub(crate) const UNTOUCHED: u8 = 0xEE;

pub(crate) const FRESH: Buffer = [UNTOUCHED; 448];

/// Whether the buffer has these records, and behind them what it had.
pub(crate) fn has(out: &Buffer, records: &[Record]) -> bool {
    let (laid, rest) = out.split_at(64 * records.len().min(7));
    records.len() <= 7
        && laid
            .chunks_exact(64)
            .zip(records)
            .all(|(bytes, record)| bytes[..] == record.to_bytes()[..])
        && rest.iter().all(|byte| *byte == UNTOUCHED)
}

/// A record without clock and updates.
pub(crate) fn plain(
    kind: RecordKind,
    sender: u8,
    receiver: u8,
    detail: u8,
    serial: u32,
    number: u16,
) -> Record {
    Record {
        kind,
        sender,
        receiver,
        detail,
        serial,
        number,
        start: Clock::ZERO,
        updates: [Update::NONE; 4],
    }
}

/// The row of a transaction that saw nothing and puts one word.
pub(crate) fn row(home: u8, serial: u32, number: u16, object: u16, operand: i32) -> Row {
    Row {
        home,
        serial,
        number,
        start: Clock::ZERO,
        count: 1,
        updates: [
            Update {
                object,
                element: 0,
                operand,
            },
            Update::NONE,
            Update::NONE,
            Update::NONE,
        ],
    }
}
