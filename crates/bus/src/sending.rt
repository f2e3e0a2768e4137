//! What a call has to tell other boards.
use crate::letter::Letter;
use record::Record;

/// What a call has to tell other boards.
#[derive(Clone, Copy)]
pub enum Sending {
    Nothing,
    One(Record),
    Several(Letter),
}
