//! What a board does with a record that is brought to it.
ghost use Rattle.board.specs.Delivers.{acted};
ghost use Rattle.board.specs.Effects.{Does};

use crate::board::Board;
use bus::Sending;
use keeper::LogKeeper;
use record::{Fault, Record, RecordKind, Row, TransactionId};

impl<K: LogKeeper> Board<K> {
    /// Acts on a record by its kind.
    pub(crate) fn act_on(&mut self, record: &Record) -> Result<Sending, Fault>
        ensures { Does (λ s. acted s «record».now) result self.old self.new }
    {
        match record.kind {
            RecordKind::Prepare => self.on_prepare(&Row::from(*record)),
            RecordKind::Vote => self.on_vote(record.sender, record.serial, record.detail == 1),
            RecordKind::Abort => self.on_abort(TransactionId {
                home: record.sender,
                serial: record.serial,
            }),
            RecordKind::Propagate => self.on_propagate(&Row::from(*record)),
            RecordKind::Ack => self.on_ack(record.sender, record.number),
            RecordKind::Durable => self.on_durable(record.sender, record.number),
            // none comes here: a ROW is no record of the bus, and was denied
            RecordKind::Row => Ok(Sending::Nothing),
        }
    }
}
