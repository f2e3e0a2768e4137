//! What firmware holds of a transaction that waits for votes. Only commit makes one, and it cannot be copied.
ghost use Rattle.std.specs.Prelude.{◌≡◌};

use record::{Fault, TransactionId};

/// A transaction that waits for votes, or is decided and not yet settled. It allows only settle, and so is another type than an open
/// one: a call out of order does not compile.
#[derive(Drop)]
pub struct WaitingTransaction {
    pub(crate) id: TransactionId,
}

impl WaitingTransaction {
    /// The serial, by which records and resend name the transaction.
    pub fn serial(&self) -> u32
        ensures { result ≡ self.now.id.serial }
    {
        self.id.serial
    }
}

/// What settle answers: an outcome and a sequence number, and the transaction if it still waits; else its place is free.
/// Where settle is denied nothing has changed, and the transaction is given back.
pub type SettleAnswer = Result<
    ((u8, u16), Option<WaitingTransaction>),
    (WaitingTransaction, Fault),
>;
