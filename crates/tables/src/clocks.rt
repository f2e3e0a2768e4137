//! Clocks: the next number, and what is in the log, shows or was acknowledged.
ghost use Rattle.std.specs.Prelude.{◌≡◌, ◌+◌};
ghost use Rattle.record.specs.Clocks.{entry_of};
ghost use Rattle.tables.specs.Changes.{with_own, with_got, with_shown, with_ack};

use crate::tables::Tables;

impl Tables {
    /// The number of the board's next own row.
    pub fn next_number(&self) -> u32
        ensures { result ≡ entry_of self.now.committed self.now.config.own + 1 }
    {
        self.committed.entry(self.config.own) as u32 + 1
    }

    /// An own row is in the log, and shows.
    pub fn take_own(&mut self, number: u16)
        ensures { self.new ≡ with_own self.old number }
    {
        self.got.raise(self.config.own, number);
        self.committed.raise(self.config.own, number);
    }

    /// A row of another home is in the log.
    pub fn take(&mut self, home: u8, number: u16)
        ensures { self.new ≡ with_got self.old home number }
    {
        self.got.raise(home, number);
    }

    /// A row of another home shows.
    pub fn show(&mut self, home: u8, number: u16)
        ensures { self.new ≡ with_shown self.old home number }
    {
        self.committed.raise(home, number);
    }

    /// Another board has acknowledged an own row.
    pub fn acknowledge(&mut self, board: u8, number: u16)
        ensures { self.new ≡ with_ack self.old board number }
    {
        self.acknowledged.raise(board, number);
    }
}
