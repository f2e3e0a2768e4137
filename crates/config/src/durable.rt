//! When an own row is durable: enough boards are known to have it.
ghost use Rattle.std.specs.Prelude.{◌≡◌, not, ◌||◌};
ghost use Rattle.std.specs.List.{list_all};
ghost use Rattle.config.specs.Durable.{is_held, holders, is_durable};
ghost use Rattle.config.specs.Objects.{is_regular, preferred_of};

use crate::config::Config;
use record::{Clock, Row, Update};

/// An own row, by its number, and the numbers that the other boards have acknowledged.
#[derive(Clone, Copy)]
struct Spread<'a> {
    config: &'a Config,
    acknowledged: &'a Clock,
    number: u16,
}

impl Spread<'_> {
    /// Whether the board is known to have the row.
    fn is_held(&self, board: u8) -> bool
        ensures { result ≡ is_held self.now.config.now self.now.acknowledged.now self.now.number board }
    {
        board == self.config.own || self.acknowledged.covers(board, self.number)
    }

    /// How many boards are known to have it, this one among them.
    #[tactic(auto, unfolding(crate::specs::Durable::holders))]
    fn holders(&self) -> usize
        ensures { result ≡ holders self.now.config.now self.now.acknowledged.now self.now.number }
    {
        (0..self.config.boards)
            .filter(|board| self.is_held(*board))
            .count()
    }

    /// Whether the preferred boards of the regular objects that are written are known to have the row.
    fn are_safe(&self, updates: &[Update]) -> bool
        ensures { result ≡ list_all (λ u. not (is_regular self.now.config.now u.object) || is_held self.now.config.now self.now.acknowledged.now self.now.number (preferred_of self.now.config.now u.object)) updates.now }
    {
        updates.iter().all(|update| {
            !self.config.is_regular(update.object)
                || self.is_held(self.config.preferred_of(update.object))
        })
    }
}

impl Config {
    /// Whether enough boards are known to have the own row: one more than may be lost, and the preferred boards of the regular objects
    /// that it writes among them; for a row that writes none, one other board.
    pub fn is_durable(&self, acknowledged: &Clock, row: &Row) -> bool
        ensures { result ≡ is_durable self.now acknowledged.now row.now }
    {
        let spread = Spread {
            config: self,
            acknowledged,
            number: row.number,
        };
        let updates = row.updates();
        let holders = spread.holders();
        if self.writes_regular(updates) {
            self.losses as usize + 1 <= holders && spread.are_safe(updates)
        } else {
            2 <= holders
        }
    }
}
