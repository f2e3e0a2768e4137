//! What firmware holds of an open transaction. Only start makes one, and it cannot be copied.
ghost use Rattle.std.specs.Prelude.{◌≡◌};

use crate::waiting::WaitingTransaction;
use record::{Fault, TransactionId};

/// An open transaction: it must be ended by commit or abandon, and cannot be let go before.
pub struct OpenTransaction {
    pub(crate) id: TransactionId,
}

impl OpenTransaction {
    /// The serial, by which records and resend name the transaction.
    pub fn serial(&self) -> u32
        ensures { result ≡ self.now.id.serial }
    {
        self.id.serial
    }
}

/// What commit answers: an outcome, a sequence number and how many records were written, and the transaction if it waits for votes.
/// The three are plain numbers in one tuple, as a panel shows them.
/// Where commit is denied nothing has changed, and the open transaction is given back.
pub type CommitAnswer = Result<
    ((u8, u16, usize), Option<WaitingTransaction>),
    (OpenTransaction, Fault),
>;
