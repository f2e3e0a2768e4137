//! Merging kinds: objects whose elements end alike in whatever order their operands arrive.
#![tactic(auto)]

mod count;
mod fold;
mod highest_mark;
mod kind;

pub use count::Count;
pub use fold::{ElementId, merged};
pub use highest_mark::HighestMark;
pub use kind::MergingKind;
