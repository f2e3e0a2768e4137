//! Refusals. Every call that refuses answers one fault, and then nothing has changed.
ghost use Rattle.std.specs.Prelude.{◌≡◌};
ghost use Rattle.record.specs.Faults.{layer_of, number_in, place_in};

use std::fmt;

/// Why a call is refused: the whole table. The numbers are those that a panel shows.
#[derive(Clone, Copy, PartialEq, Eq, Debug)]
pub enum Denial {
    /// A board cannot be built on this keeper (its memory is not fit, or it holds rows), or from these numbers.
    Build = 1,
    /// The outgoing buffer has fewer than 448 bytes.
    ShortBuffer = 2,
    /// A record or a row breaks its rules; the fault's place says where.
    BadRecord = 3,
    /// The board has no such transaction.
    NoTransaction = 4,
    /// The transaction is in a state that the call does not fit.
    WrongState = 5,
    /// The object's container is not listed.
    Unlisted = 6,
    /// The container has another kind, or the kind does not admit the operand.
    KindDiffers = 7,
    /// The transaction has four updates already.
    FourUpdates = 8,
    /// No transaction place is free.
    NoPlace = 9,
    /// The last serial, 4,294,967,295, was given out.
    SerialsSpent = 10,
    /// The log is full.
    LogFull = 11,
    /// Too few lock places are free.
    NoLockPlaces = 12,
    /// The record came before one that it follows: bring it again later.
    Early = 13,
    /// The record is for another board, or tells of a number that this board has not reached.
    NotHere = 14,
}

/// A refusal: who found it, and why. A panel shows its layer, number and place.
#[derive(Clone, Copy, PartialEq, Eq, Debug)]
pub enum Fault {
    /// The board refuses.
    Board(Denial),
    /// A record breaks a rule at this byte; 64 is a wrong length.
    Record(u32),
    /// The keeper of the log refuses.
    Keeper(Denial),
}

impl Fault {
    /// Who found it: 2 is the board, 3 a record, 4 the keeper.
    pub fn layer(&self) -> u8
        ensures { result ≡ layer_of self.now }
    {
        match self {
            Fault::Board(_) => 2,
            Fault::Record(_) => 3,
            Fault::Keeper(_) => 4,
        }
    }

    /// The number of the denial.
    pub fn number(&self) -> u8
        ensures { result ≡ number_in self.now }
    {
        match self {
            Fault::Board(why) | Fault::Keeper(why) => *why as u8,
            Fault::Record(_) => Denial::BadRecord as u8,
        }
    }

    /// The byte at which a record breaks a rule; 0 for any other fault.
    pub fn place(&self) -> u32
        ensures { result ≡ place_in self.now }
    {
        match self {
            Fault::Record(place) => *place,
            Fault::Board(_) | Fault::Keeper(_) => 0,
        }
    }
}

impl fmt::Display for Fault {
    fn fmt<W: fmt::Write>(&self, f: &mut fmt::Formatter<W>) -> fmt::Result {
        write!(f, "{} {} {}", self.layer(), self.number(), self.place())
    }
}
