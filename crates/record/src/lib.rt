//! What the boards of a group say to each other: bus records of 64 bytes, and the clocks, rows and faults in them.
#![tactic(auto)]

mod bytes;
mod clock;
mod codec;
mod fault;
mod kind;
mod layout;
mod message;
mod row;
mod rules;
mod text;
mod transaction;

pub use clock::Clock;
pub use fault::{Denial, Fault};
pub use kind::{Bounds, KINDS, KindRules, RecordKind};
pub use message::{NOBODY, Record};
pub use row::{Row, Update};
pub use transaction::TransactionId;
