//! A board and its calls.
#![tactic(auto)]

mod act;
mod agree;
mod board;
mod commit;
mod decide;
mod deliver;
mod due;
mod open;
mod outbox;
mod own;
mod resend;
mod spread;
mod transactions;
mod waiting;

pub use board::Board;
pub use open::{CommitAnswer, OpenTransaction};
pub use waiting::{SettleAnswer, WaitingTransaction};
