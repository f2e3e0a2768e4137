//! Records between boards: what is told to others, and what is taken from the bus.
#![tactic(auto)]

mod letter;
mod received;
mod sending;

pub use letter::{Letter, abort, ack, durable, vote};
pub use received::receive;
pub use sending::Sending;
