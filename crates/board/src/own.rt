//! Our objects, and the board's own rows.
ghost use Rattle.std.specs.Prelude.{◌≡◌};
ghost use Rattle.board.specs.Commits.{all_clear, own_row};
ghost use Rattle.board.specs.Effects.{state_of, leaves};

use crate::board::Board;
use keeper::LogKeeper;
use record::{Denial, Fault, Row};

impl<K: LogKeeper> Board<K> {
    /// Whether each of our regular objects that the row writes is clear: unlocked, and changed by no row that its start clock does not cover.
    pub(crate) fn all_clear(&self, row: &Row) -> bool
        ensures { result ≡ all_clear (state_of self.now) row.now }
    {
        self.tables.all_unlocked(row) && !queries::has_clash(&self.log, &self.tables.config, row)
    }

    /// Appends the row under the board's next number. It is then in the log, and shows.
    pub(crate) fn append_own(&mut self, row: &Row) -> Result<Row, Fault>
        ensures answer { result ≡ (own_row (state_of self.old) row.now).answer }
        ensures board { state_of self.new ≡ leaves (state_of self.old) (own_row (state_of self.old) row.now) }
    {
        let number = self.tables.next_number();
        if number > 4096 {
            return Err(Fault::Keeper(Denial::LogFull));
        }
        let mut own = *row;
        own.number = number as u16;
        self.log.append(&own)?;
        self.tables.take_own(own.number);
        Ok(own)
    }
}
