//! Questions to a log, over any keeper.
#![tactic(auto)]

mod clash;
mod find;
mod rows;
mod seen;

pub use clash::has_clash;
pub use find::{row_by_number, row_by_serial};
pub use seen::{value_seen, word_seen};
