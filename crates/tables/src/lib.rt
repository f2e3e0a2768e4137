//! What a board keeps beside its log: clocks, transaction places and locks.
#![tactic(auto)]

mod clocks;
mod fresh;
mod lock;
mod outcome;
mod place;
mod tables;
mod transactions;

pub use lock::Lock;
pub use outcome::Outcome;
pub use place::Place;
pub use tables::Tables;
