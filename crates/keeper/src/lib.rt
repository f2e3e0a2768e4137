//! Keepers of a board's log: a table of rows, and an area of ROW records.
#![tactic(auto)]

mod admit;
mod area;
mod log;
mod table;

pub use area::RecordArea;
pub use log::LogKeeper;
pub use table::RowTable;
