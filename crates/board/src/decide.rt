//! Commit: fast where every regular object written is preferred here, and else slow.
ghost use Rattle.std.specs.Prelude.{◌≡◌};
ghost use Rattle.config.specs.Objects.{polled_for};
ghost use Rattle.record.specs.Rows.{updates_of};
ghost use Rattle.board.specs.Commits.{fast_commit, slow_commit, clear_commit, tried, Decides};

use crate::board::Board;
use bus::{Letter, Sending};
use keeper::LogKeeper;
use record::{Fault, Row};
use tables::{Outcome, Place};

impl<K: LogKeeper> Board<K> {
    fn commit_fast(&mut self, row: &Row) -> Result<(Outcome, Sending), Fault>
        ensures { Decides (λ s. fast_commit s row.now) result self.old self.new }
    {
        let own = self.append_own(row)?;
        self.tables.set_place(row.serial, Place::Free);
        let sending = Sending::Several(Letter::Propagate(own));
        Ok((Outcome::Committed(own.number), sending))
    }

    fn commit_slowly(&mut self, row: &Row) -> Result<(Outcome, Sending), Fault>
        ensures { Decides (λ s. slow_commit s row.now (polled_for s.tables.config (updates_of row.now))) result self.old self.new }
    {
        let polled = self.tables.polled_for(row);
        self.tables.lockable(row)?;
        self.tables
            .set_place(row.serial, Place::Waiting(*row, polled, 0));
        self.tables.lock_for(row);
        let sending = Sending::Several(Letter::Prepare(*row, polled));
        Ok((Outcome::Waiting, sending))
    }

    fn commit_clear(&mut self, row: &Row) -> Result<(Outcome, Sending), Fault>
        ensures { Decides (λ s. clear_commit s row.now) result self.old self.new }
    {
        if self.tables.polled_for(row) == 0 {
            self.commit_fast(row)
        } else {
            self.commit_slowly(row)
        }
    }

    /// Commits the transaction of a row, aborts it, or asks the boards that must agree.
    pub(crate) fn try_to_commit(&mut self, row: &Row) -> Result<(Outcome, Sending), Fault>
        ensures { Decides (λ s. tried s row.now) result self.old self.new }
    {
        if row.updates().is_empty() {
            self.tables.set_place(row.serial, Place::Free);
            return Ok((Outcome::Committed(0), Sending::Nothing));
        }
        if self.all_clear(row) {
            self.commit_clear(row)
        } else {
            self.tables.set_place(row.serial, Place::Free);
            Ok((Outcome::Aborted, Sending::Nothing))
        }
    }
}
