//! Clocks: how many rows of each board are meant.
ghost use Rattle.std.specs.Prelude.{◌≡◌};
ghost use Rattle.record.specs.Clocks.{entry_of, covered, reached, raised};

/// One row number for each of eight boards.
#[derive(Clone, Copy, PartialEq, Eq, Debug)]
pub struct Clock {
    pub entries: [u16; 8],
}

impl Clock {
    /// The clock of a fresh board.
    pub const ZERO: Clock = Clock { entries: [0; 8] };

    /// The number for this board; 0 for a board that no group has.
    pub fn entry(&self, board: u8) -> u16
        ensures { result ≡ entry_of self.now board }
    {
        self.entries.get(board as usize).copied().unwrap_or(0)
    }

    /// Whether the row with this number of this board is among those that the clock counts.
    pub fn covers(&self, home: u8, number: u16) -> bool
        ensures { result ≡ covered self.now home number }
    {
        number <= self.entry(home)
    }

    /// Whether each entry is at least the other clock's.
    pub fn reaches(&self, other: &Clock) -> bool
        ensures { result ≡ reached self.now other.now }
    {
        self.entries
            .iter()
            .zip(&other.entries)
            .all(|(ours, theirs)| theirs <= ours)
    }

    /// Raises the entry of this board to the number; it never falls.
    pub fn raise(&mut self, board: u8, number: u16)
        ensures { self.new ≡ raised self.old board number }
    {
        let board = board as usize;
        // by index: a proof knows no element once what `get_mut` lends is back
        if board < self.entries.len() {
            self.entries[board] = self.entries[board].max(number);
        }
    }
}
