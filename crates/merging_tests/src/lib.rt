//! What the two merging kinds show on examples.
#![tactic(auto)]

#[cfg(test)]
mod count;
#[cfg(test)]
mod highest_mark;
#[cfg(test)]
mod merged;
