//! Boards played as firmware plays them: one alone, with what it is built with, its transactions and the merging kinds; and
//! those of a group, with the records of one brought to another.
#![tactic(auto)]

#[cfg(test)]
mod agree;
#[cfg(test)]
mod buffers;
#[cfg(test)]
mod build;
#[cfg(test)]
mod fork;
#[cfg(test)]
mod kinds;
#[cfg(test)]
mod play;
#[cfg(test)]
mod starts;
#[cfg(test)]
mod wire;
