//! Captured bus logs: what each line holds, in words.
#![tactic(auto)]

mod line;
mod report;
mod verdict;

pub use report::Report;
pub use verdict::Verdict;
