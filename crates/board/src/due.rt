//! What others may still lack of a waiting transaction or of an own row.
ghost use Rattle.std.specs.Prelude.{◌≡◌};
ghost use Rattle.bus.specs.Letters.{records_of, records_in};
ghost use Rattle.board.specs.Effects.{state_of};
ghost use Rattle.board.specs.Resends.{reminders, due, of_own_row};

use crate::board::Board;
use bus::{Letter, Sending};
use keeper::LogKeeper;
use record::{Denial, Fault, Row};
use tables::{Place, Tables};

/// The row to each board that has not acknowledged it; that it is durable, if it is, to the others.
fn reminder(tables: &Tables, row: &Row) -> Sending
    ensures { records_of tables.now.config result ≡ reminders tables.now row.now }
{
    let acknowledged = tables.acknowledged;
    let is_durable = tables.config.is_durable(&acknowledged, row);
    Sending::Several(Letter::Reminder(*row, acknowledged, is_durable))
}

impl<K: LogKeeper> Board<K> {
    /// What is due to others for an own row.
    fn due_for_row(&self, serial: u32) -> Result<Sending, Fault>
        ensures { records_in self.now.tables.config result ≡ of_own_row (state_of self.now) serial }
    {
        queries::row_by_serial(&self.log, self.tables.own_id(serial))
            .map(|row| reminder(&self.tables, &row))
            .ok_or(Fault::Board(Denial::NoTransaction))
    }

    /// What is due to others for the transaction with a serial.
    pub(crate) fn due_for(&self, serial: u32) -> Result<Sending, Fault>
        ensures { records_in self.now.tables.config result ≡ due (state_of self.now) serial }
    {
        match self.tables.place_of(serial) {
            Place::Free | Place::Committed(..) => self.due_for_row(serial),
            Place::Waiting(row, polled, agreed) => {
                let letter = Letter::PrepareAgain(row, polled, agreed);
                Ok(Sending::Several(letter))
            }
            Place::Open(_) | Place::Aborted(_) => Err(Fault::Board(Denial::WrongState)),
        }
    }
}
