//! How the boards of a group name a transaction.
ghost use Rattle.std.specs.Prelude.{◌≡◌};
ghost use Rattle.record.specs.Rows.{id_of};

use crate::row::Row;

/// A transaction, as every board of the group names it: by its home, and by its serial there.
#[derive(Clone, Copy, PartialEq, Eq, Debug)]
pub struct TransactionId {
    pub home: u8,
    pub serial: u32,
}

impl Row {
    /// The transaction that was committed as this row.
    pub fn id(&self) -> TransactionId
        ensures { result ≡ id_of self.now }
    {
        TransactionId {
            home: self.home,
            serial: self.serial,
        }
    }
}
