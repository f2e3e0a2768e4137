//! How rows spread: PROPAGATE, ACK and DURABLE.
ghost use Rattle.std.specs.Prelude.{◌≡◌};
ghost use Rattle.config.specs.Durable.{is_durable};
ghost use Rattle.bus.specs.Letters.{records_of};
ghost use Rattle.tables.specs.Changes.{with_ack};
ghost use Rattle.board.specs.Delivers.{is_next, is_due, on_propagate, told, news, on_ack, is_showable, shown, on_durable};
ghost use Rattle.board.specs.Effects.{state_of, Does};

use crate::board::Board;
use bus::{Letter, Sending};
use keeper::LogKeeper;
use record::{Denial, Fault, Row, TransactionId};
use tables::Tables;

/// Whether a number follows a clock entry.
fn is_next(number: u16, entry: u16) -> bool
    ensures { result ≡ is_next number entry }
{
    number as u32 == entry as u32 + 1
}

/// Whether a row may be taken: it is the next of its home, and all that its start clock covers is here.
fn is_due(tables: &Tables, row: &Row) -> bool
    ensures { result ≡ is_due tables.now row.now }
{
    is_next(row.number, tables.got.entry(row.home)) && tables.got.reaches(&row.start)
}

/// Whether a row may show: it is the next of its home, it is here, and all that its start clock covers shows.
fn is_showable(tables: &Tables, sender: u8, number: u16, row: &Row) -> bool
    ensures { result ≡ is_showable tables.now sender number row.now }
{
    is_next(number, tables.committed.entry(sender))
        && tables.got.covers(sender, number)
        && tables.committed.reaches(&row.start)
}

/// Tells that a row is durable: the sender of an ACK, if the row was before it, and all others, if it is by it.
fn tell_durable(tables: &Tables, row: &Row, was: bool, sender: u8) -> Sending
    ensures { records_of tables.now.config result ≡ told tables.now.config was (is_durable tables.now.config tables.now.acknowledged row.now) sender row.now }
{
    if was {
        return Sending::One(bus::durable(&tables.config, row.number, sender));
    }
    if tables.config.is_durable(&tables.acknowledged, row) {
        return Sending::Several(Letter::Durable(row.number));
    }
    Sending::Nothing
}

/// Takes note that another board has a row, and tells what that makes of it; a number without a row in the log has nothing to tell.
fn note_ack(tables: &mut Tables, row: Option<Row>, sender: u8, number: u16) -> Sending
    ensures after { tables.new ≡ with_ack tables.old sender number }
    ensures told { records_of tables.old.config result ≡ news tables.old (with_ack tables.old sender number) sender row }
{
    let Some(row) = row else {
        tables.acknowledge(sender, number);
        return Sending::Nothing;
    };
    let was = tables.config.is_durable(&tables.acknowledged, &row);
    tables.acknowledge(sender, number);
    tell_durable(tables, &row, was, sender)
}

impl<K: LogKeeper> Board<K> {
    /// PROPAGATE: a row is taken unless it is here already, and what is in the log is acknowledged.
    pub(crate) fn on_propagate(&mut self, row: &Row) -> Result<Sending, Fault>
        ensures { Does (λ s. on_propagate s row.now) result self.old self.new }
    {
        if !self.tables.got.covers_row(row) {
            if !is_due(&self.tables, row) {
                return Err(Fault::Board(Denial::Early));
            }
            self.log.append(row)?;
            self.tables.take(row.home, row.number);
        }
        let ack = bus::ack(&self.tables.config, row.number, row.home);
        Ok(Sending::One(ack))
    }

    /// ACK: another board has an own row.
    pub(crate) fn on_ack(&mut self, sender: u8, number: u16) -> Result<Sending, Fault>
        ensures { Does (λ s. on_ack s sender number) result self.old self.new }
    {
        let own = self.tables.config.own;
        if !self.tables.committed.covers(own, number) {
            return Err(Fault::Board(Denial::NotHere));
        }
        let row = queries::row_by_number(&self.log, own, number);
        Ok(note_ack(&mut self.tables, row, sender, number))
    }

    /// The row that a DURABLE is for, if it may show.
    fn shown(&self, sender: u8, number: u16) -> Result<Row, Fault>
        ensures { result ≡ shown (state_of self.now) sender number }
    {
        match queries::row_by_number(&self.log, sender, number) {
            Some(row) if is_showable(&self.tables, sender, number, &row) => Ok(row),
            _ => Err(Fault::Board(Denial::Early)),
        }
    }

    /// DURABLE: a row of another home shows.
    pub(crate) fn on_durable(&mut self, sender: u8, number: u16) -> Result<Sending, Fault>
        ensures { Does (λ s. on_durable s sender number) result self.old self.new }
    {
        if self.tables.committed.covers(sender, number) {
            return Ok(Sending::Nothing);
        }
        let row = self.shown(sender, number)?;
        self.tables.show(sender, number);
        self.tables.release(TransactionId {
            home: sender,
            serial: row.serial,
        });
        Ok(Sending::Nothing)
    }
}
