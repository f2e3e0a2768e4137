//! What a board keeps beside its log.
use crate::lock::Lock;
use crate::place::Place;
use config::Config;
use record::Clock;

/// All that a board keeps beside its log.
#[derive(Clone, Copy)]
pub struct Tables {
    pub config: Config,
    /// The rows in the log.
    pub got: Clock,
    /// The rows that new transactions see.
    pub committed: Clock,
    /// For each other board, the highest number of an own row that it has acknowledged.
    pub acknowledged: Clock,
    /// The serial of the next transaction; above 4,294,967,295 all were given out.
    pub next: u64,
    pub places: [Place; 8],
    pub locks: [Option<Lock>; 64],
}
