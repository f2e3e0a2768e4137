//! Examples of bus records, run against the public calls of `record`.
#![tactic(auto)]

#[cfg(test)]
mod bounds;
#[cfg(test)]
mod clocks;
#[cfg(test)]
mod places;
#[cfg(test)]
mod samples;
