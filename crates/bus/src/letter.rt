//! What a board tells several others at once.
ghost use Rattle.std.specs.Prelude.{◌≡◌, cond};
ghost use Rattle.bus.specs.Letters.{is_for, goes_to, letter_to};
ghost use Rattle.bus.specs.Records.{plain, vote, abort, ack, durable};

use config::{Config, board_set};
use record::{Clock, Record, RecordKind, Row, Update};

/// A record without clock and updates.
fn plain(kind: RecordKind, sender: u8, receiver: u8, detail: u8, serial: u32, number: u16) -> Record
    ensures { result ≡ plain kind sender receiver detail serial number }
{
    Record {
        kind,
        sender,
        receiver,
        detail,
        serial,
        number,
        start: Clock::ZERO,
        updates: [Update::NONE; 4],
    }
}

/// The answer to a PREPARE.
pub fn vote(config: &Config, receiver: u8, is_yes: bool, serial: u32) -> Record
    ensures { result ≡ vote config.now receiver (cond is_yes 1 0) serial }
{
    plain(
        RecordKind::Vote,
        config.own,
        receiver,
        u8::from(is_yes),
        serial,
        0,
    )
}

pub fn abort(config: &Config, serial: u32, receiver: u8) -> Record
    ensures { result ≡ abort config.now serial receiver }
{
    plain(RecordKind::Abort, config.own, receiver, 0, serial, 0)
}

pub fn ack(config: &Config, number: u16, receiver: u8) -> Record
    ensures { result ≡ ack config.now number receiver }
{
    plain(RecordKind::Ack, config.own, receiver, 0, 0, number)
}

pub fn durable(config: &Config, number: u16, receiver: u8) -> Record
    ensures { result ≡ durable config.now number receiver }
{
    plain(RecordKind::Durable, config.own, receiver, 0, 0, number)
}

/// What is told to other boards, each by a record of its own.
#[derive(Clone, Copy)]
pub enum Letter {
    /// PREPARE of a waiting transaction, to the boards that are polled.
    Prepare(Row, u8),
    /// The same once more, to those of them that have not agreed.
    PrepareAgain(Row, u8, u8),
    /// PROPAGATE of an own row, to all.
    Propagate(Row),
    /// ABORT of this serial, to the boards that had agreed.
    Abort(u32, u8),
    /// DURABLE of this number, to all.
    Durable(u16),
    /// An own row to a board that has not acknowledged it, and to one that has DURABLE, if the row is.
    Reminder(Row, Clock, bool),
}

impl Letter {
    /// Whether a board is meant.
    fn is_for(&self, board: u8) -> bool
        ensures { result ≡ is_for self.now board }
    {
        match self {
            Letter::Prepare(_, polled) => board_set::has(*polled, board),
            Letter::PrepareAgain(_, polled, agreed) => {
                board_set::has(*polled, board) && !board_set::has(*agreed, board)
            }
            Letter::Propagate(_) | Letter::Durable(_) => true,
            Letter::Abort(_, agreed) => board_set::has(*agreed, board),
            Letter::Reminder(row, acknowledged, is_durable) => {
                !acknowledged.covers(board, row.number) || *is_durable
            }
        }
    }

    /// Whether a record goes to the board: to itself a board sends none.
    pub fn goes_to(&self, config: &Config, board: u8) -> bool
        ensures { result ≡ goes_to config.now self.now board }
    {
        board != config.own && self.is_for(board)
    }

    pub fn to(&self, config: &Config, board: u8) -> Record
        ensures { result ≡ letter_to config.now self.now board }
    {
        match self {
            Letter::Prepare(row, _) | Letter::PrepareAgain(row, _, _) => {
                row.to_record(RecordKind::Prepare, board)
            }
            Letter::Propagate(row) => row.to_record(RecordKind::Propagate, board),
            Letter::Abort(serial, _) => abort(config, *serial, board),
            Letter::Durable(number) => durable(config, *number, board),
            Letter::Reminder(row, acknowledged, _) => {
                if acknowledged.covers(board, row.number) {
                    durable(config, row.number, board)
                } else {
                    row.to_record(RecordKind::Propagate, board)
                }
            }
        }
    }
}
