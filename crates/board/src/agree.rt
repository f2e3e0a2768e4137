//! How boards agree on a slow commit: PREPARE, VOTE and ABORT.
ghost use Rattle.std.specs.Prelude.{◌≡◌, cond};
ghost use Rattle.bus.specs.Records.{vote};
ghost use Rattle.bus.specs.declared.sending.Sending.TheVariants.{One};
ghost use Rattle.board.specs.Delivers.{on_prepare, on_no, on_last_yes, on_yes, on_waiting, on_late_vote, on_vote, on_abort};
ghost use Rattle.board.specs.Effects.{Does};

use crate::board::Board;
use bus::{Letter, Sending};
use config::board_set;
use keeper::LogKeeper;
use record::{Fault, Row, TransactionId};
use tables::Place;

impl<K: LogKeeper> Board<K> {
    /// Tells the home of a transaction whether this board agrees.
    fn vote(&self, row: &Row, is_yes: bool) -> Sending
        ensures { result ≡ One (vote self.now.tables.config row.now.home (cond is_yes 1 0) row.now.serial) }
    {
        Sending::One(bus::vote(&self.tables.config, row.home, is_yes, row.serial))
    }

    /// PREPARE: our objects that the transaction writes are locked for it, if they are clear.
    pub(crate) fn on_prepare(&mut self, row: &Row) -> Result<Sending, Fault>
        ensures { Does (λ s. on_prepare s row.now) result self.old self.new }
    {
        if self.tables.all_locked(row) {
            return Ok(self.vote(row, true));
        }
        if !self.all_clear(row) {
            return Ok(self.vote(row, false));
        }
        self.tables.lockable(row)?;
        self.tables.lock_for(row);
        Ok(self.vote(row, true))
    }

    /// A no aborts, and the boards that had agreed are told.
    fn on_no(&mut self, row: &Row, agreed: u8) -> Result<Sending, Fault>
        ensures { Does (λ s. on_no s row.now agreed) result self.old self.new }
    {
        let serial = row.serial;
        self.tables.set_place(serial, Place::Aborted(serial));
        self.tables.release(self.tables.own_id(serial));
        Ok(Sending::Several(Letter::Abort(serial, agreed)))
    }

    /// The last yes commits.
    fn on_last_yes(&mut self, row: &Row) -> Result<Sending, Fault>
        ensures { Does (λ s. on_last_yes s row.now) result self.old self.new }
    {
        let serial = row.serial;
        let own = self.append_own(row)?;
        self.tables
            .set_place(serial, Place::Committed(serial, own.number));
        self.tables.release(self.tables.own_id(serial));
        Ok(Sending::Several(Letter::Propagate(own)))
    }

    fn on_yes(&mut self, row: &Row, polled: u8, agreed: u8) -> Result<Sending, Fault>
        ensures { Does (λ s. on_yes s row.now polled agreed) result self.old self.new }
    {
        if agreed == polled {
            return self.on_last_yes(row);
        }
        self.tables
            .set_place(row.serial, Place::Waiting(*row, polled, agreed));
        Ok(Sending::Nothing)
    }

    /// A vote on a transaction that waits: only a board that was polled has one.
    fn on_waiting(
        &mut self,
        row: &Row,
        polled: u8,
        agreed: u8,
        sender: u8,
        is_yes: bool,
    ) -> Result<Sending, Fault>
        ensures { Does (λ s. on_waiting s row.now polled agreed sender is_yes) result self.old self.new }
    {
        if !board_set::has(polled, sender) {
            return Ok(Sending::Nothing);
        }
        if is_yes {
            self.on_yes(row, polled, board_set::with(agreed, sender))
        } else {
            self.on_no(row, agreed)
        }
    }

    /// A vote on any other: a yes to what was not committed is answered by ABORT.
    fn on_late_vote(&mut self, sender: u8, serial: u32, is_yes: bool) -> Result<Sending, Fault>
        ensures { Does (λ s. on_late_vote s sender serial is_yes) result self.old self.new }
    {
        let id = self.tables.own_id(serial);
        if is_yes && queries::row_by_serial(&self.log, id).is_none() {
            let abort = bus::abort(&self.tables.config, serial, sender);
            return Ok(Sending::One(abort));
        }
        Ok(Sending::Nothing)
    }

    /// VOTE: another board agrees to a transaction of this one, or does not.
    pub(crate) fn on_vote(
        &mut self,
        sender: u8,
        serial: u32,
        is_yes: bool,
    ) -> Result<Sending, Fault>
        ensures { Does (λ s. on_vote s sender serial is_yes) result self.old self.new }
    {
        match self.tables.place_of(serial) {
            Place::Waiting(row, polled, agreed) => {
                self.on_waiting(&row, polled, agreed, sender, is_yes)
            }
            _ => self.on_late_vote(sender, serial, is_yes),
        }
    }

    /// ABORT: the locks of a transaction that was aborted are freed.
    pub(crate) fn on_abort(&mut self, id: TransactionId) -> Result<Sending, Fault>
        ensures { Does (λ s. on_abort s id.home id.serial) result self.old self.new }
    {
        self.tables.release(id);
        Ok(Sending::Nothing)
    }
}
