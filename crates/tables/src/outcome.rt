//! What became of a transaction.
ghost use Rattle.std.specs.Prelude.{◌≡◌};
ghost use Rattle.tables.specs.Outcomes.{outcome_code, outcome_number};

/// What became of a transaction.
#[derive(Clone, Copy, PartialEq, Eq, Debug)]
pub enum Outcome {
    /// It was committed, as the row with this number; 0 where it wrote none.
    Committed(u16),
    /// It waits for votes.
    Waiting,
    /// It was aborted.
    Aborted,
}

impl Outcome {
    /// The outcome as a number, as a panel shows it.
    pub fn code(self) -> u8
        ensures { result ≡ outcome_code self }
    {
        match self {
            Outcome::Committed(_) => 1,
            Outcome::Waiting => 2,
            Outcome::Aborted => 3,
        }
    }

    /// The number of the row; 0 unless it was committed.
    pub fn number(self) -> u16
        ensures { result ≡ outcome_number self }
    {
        match self {
            Outcome::Committed(number) => number,
            Outcome::Waiting | Outcome::Aborted => 0,
        }
    }
}
