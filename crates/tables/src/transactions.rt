//! The calls on a transaction.
ghost use Rattle.std.specs.Prelude.{◌≡◌};
ghost use Rattle.tables.specs.Outcomes.{numbered_in};
ghost use Rattle.tables.specs.Transactions.{start, own_id, place_for, open_row, kind_fits, with_update, updated, put, merge, readable, abandon, settle};

use crate::outcome::Outcome;
use crate::place::Place;
use crate::tables::Tables;
use record::{Denial, Fault, Row, TransactionId, Update};

/// The row with one update more, if it has fewer than four.
fn with_update(row: &Row, update: Update) -> Result<Row, Fault>
    ensures { result ≡ with_update row.now update }
{
    let mut longer = *row;
    if longer.count >= 4 {
        return Err(Fault::Board(Denial::FourUpdates));
    }
    longer.updates[longer.count as usize] = update;
    longer.count += 1;
    Ok(longer)
}

impl Tables {
    /// Starts a transaction that sees what the board has committed, and answers its serial.
    #[tactic(auto, using(crate::proofs::Firsts::first_at_is))]
    pub fn start(&mut self) -> Result<u32, Fault>
        ensures answer { result ≡ (start self.old).answer }
        ensures after { self.new ≡ (start self.old).tables }
    {
        let place = self.free_place().ok_or(Fault::Board(Denial::NoPlace))?;
        let serial = u32::try_from(self.next).map_err(|_| Fault::Board(Denial::SerialsSpent))?;
        self.places[place] = Place::Open(Row {
            home: self.config.own,
            serial,
            start: self.committed,
            ..Row::ZERO
        });
        self.next += 1;
        Ok(serial)
    }

    /// The board's own transaction with this serial.
    pub fn own_id(&self, serial: u32) -> TransactionId
        ensures { result ≡ own_id self.now serial }
    {
        let home = self.config.own;
        TransactionId { home, serial }
    }

    /// The place of a transaction; free where it is not one of this board.
    fn place_for(&self, id: TransactionId) -> Place
        ensures { result ≡ place_for self.now id.home id.serial }
    {
        if id.home == self.config.own {
            self.place_of(id.serial)
        } else {
            Place::Free
        }
    }

    /// The row that an open transaction would become.
    pub fn open_row(&self, id: TransactionId) -> Result<Row, Fault>
        ensures { result ≡ open_row self.now id.home id.serial }
    {
        match self.place_for(id) {
            Place::Free => Err(Fault::Board(Denial::NoTransaction)),
            Place::Open(row) => Ok(row),
            Place::Waiting(..) | Place::Committed(..) | Place::Aborted(_) => {
                Err(Fault::Board(Denial::WrongState))
            }
        }
    }

    /// Whether the object's container is listed, and of this kind.
    fn fit_kind(&self, object: u16, kind: u8) -> Result<(), Fault>
        ensures { result ≡ kind_fits self.now object kind }
    {
        if !self.config.is_listed(object) {
            return Err(Fault::Board(Denial::Unlisted));
        }
        if !self.config.has_kind(object, kind) {
            return Err(Fault::Board(Denial::KindDiffers));
        }
        Ok(())
    }

    /// One update more for the open transaction with this serial and this row.
    fn add(&mut self, serial: u32, row: &Row, update: Update) -> Result<(), Fault>
        ensures answer { result ≡ (updated self.old serial (with_update row.now update)).answer }
        ensures after { self.new ≡ (updated self.old serial (with_update row.now update)).tables }
    {
        let longer = with_update(row, update)?;
        self.set_place(serial, Place::Open(longer));
        Ok(())
    }

    /// A transaction gives a regular object another word.
    pub fn put(&mut self, id: TransactionId, object: u16, word: u32) -> Result<(), Fault>
        ensures answer { result ≡ (put self.old id.home id.serial object word).answer }
        ensures after { self.new ≡ (put self.old id.home id.serial object word).tables }
    {
        let row = self.open_row(id)?;
        self.fit_kind(object, 0)?;
        let update = Update {
            object,
            element: 0,
            operand: word.cast_signed(),
        };
        self.add(id.serial, &row, update)
    }

    /// A transaction changes an object of a merging kind, which tells whether it admits the operand.
    pub fn merge(
        &mut self,
        id: TransactionId,
        kind: u8,
        admitted: bool,
        update: Update,
    ) -> Result<(), Fault>
        ensures answer { result ≡ (merge self.old kind admitted id.home id.serial update.object update.element update.operand).answer }
        ensures after { self.new ≡ (merge self.old kind admitted id.home id.serial update.object update.element update.operand).tables }
    {
        let row = self.open_row(id)?;
        self.fit_kind(update.object, kind)?;
        if !admitted {
            return Err(Fault::Board(Denial::KindDiffers));
        }
        self.add(id.serial, &row, update)
    }

    /// The row of an open transaction that may read this object as one of this kind.
    pub fn readable(&self, id: TransactionId, object: u16, kind: u8) -> Result<Row, Fault>
        ensures { result ≡ readable self.now id.home id.serial object kind }
    {
        let open = self.open_row(id)?;
        self.fit_kind(object, kind)?;
        Ok(open)
    }

    /// Ends an open transaction, as if it had never been.
    pub fn abandon(&mut self, id: TransactionId) -> Result<(), Fault>
        ensures answer { result ≡ (abandon self.old id.home id.serial).answer }
        ensures after { self.new ≡ (abandon self.old id.home id.serial).tables }
    {
        let _ = self.open_row(id)?;
        self.set_place(id.serial, Place::Free);
        Ok(())
    }

    /// What became of a transaction; its place is free once that is decided.
    pub fn settle(&mut self, id: TransactionId) -> Result<Outcome, Fault>
        ensures answer { numbered_in result ≡ (settle self.old id.home id.serial).answer }
        ensures after { self.new ≡ (settle self.old id.home id.serial).tables }
    {
        let outcome = match self.place_for(id) {
            Place::Free => return Err(Fault::Board(Denial::NoTransaction)),
            Place::Open(_) => return Err(Fault::Board(Denial::WrongState)),
            Place::Waiting(..) => return Ok(Outcome::Waiting),
            Place::Committed(_, number) => Outcome::Committed(number),
            Place::Aborted(_) => Outcome::Aborted,
        };
        self.set_place(id.serial, Place::Free);
        Ok(outcome)
    }
}
