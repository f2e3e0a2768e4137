//! Places for transactions.
ghost use Rattle.std.specs.Prelude.{◌≡◌};
ghost use Rattle.std.specs.List.{position};
ghost use Rattle.tables.specs.Changes.{placed};
ghost use Rattle.tables.specs.Places.{is_free, has_serial, place_of};

use crate::tables::Tables;
use record::Row;

/// A place for one transaction of this board. An open or waiting transaction is kept as the row that it would become, with number 0.
#[derive(Clone, Copy, PartialEq, Eq, Debug)]
pub enum Place {
    Free,
    /// It may be changed.
    Open(Row),
    /// It was sent to the polled boards; those that have said yes.
    Waiting(Row, u8, u8),
    /// It was committed, as the row with this number.
    Committed(u32, u16),
    /// It was aborted.
    Aborted(u32),
}

impl Place {
    fn is_free(&self) -> bool
        ensures { result ≡ is_free self.now }
    {
        matches!(self, Place::Free)
    }

    /// Whether the place is of the transaction with this serial.
    fn has_serial(&self, serial: u32) -> bool
        ensures { result ≡ has_serial serial self.now }
    {
        match self {
            Place::Free => false,
            Place::Open(row) | Place::Waiting(row, _, _) => row.serial == serial,
            Place::Committed(own, _) | Place::Aborted(own) => *own == serial,
        }
    }
}

impl Tables {
    /// The index of the first free place.
    pub(crate) fn free_place(&self) -> Option<usize>
        ensures { result ≡ position is_free self.now.places }
    {
        self.places.iter().position(|place| place.is_free())
    }

    /// The index of the serial's place.
    fn index_of(&self, serial: u32) -> Option<usize>
        ensures { result ≡ position (has_serial serial) self.now.places }
    {
        self.places
            .iter()
            .position(|place| place.has_serial(serial))
    }

    /// What stands in the place of the serial; free where it has none.
    #[tactic(auto, using(crate::proofs::Firsts::got_found, crate::proofs::Firsts::got_missed))]
    pub fn place_of(&self, serial: u32) -> Place
        ensures { result ≡ place_of self.now.places serial }
    {
        let index = self.index_of(serial);
        index.map_or(Place::Free, |i| self.places[i])
    }

    /// Puts another into the place of the serial; nothing changes where it has none.
    #[tactic(auto, using(crate::proofs::Firsts::first_at_is, crate::proofs::Firsts::set_missed))]
    pub fn set_place(&mut self, serial: u32, place: Place)
        ensures { self.new ≡ placed self.old serial place }
    {
        if let Some(i) = self.index_of(serial) {
            self.places[i] = place;
        }
    }
}
