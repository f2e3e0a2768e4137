//! What a board keeps that has just been built.
ghost use Rattle.std.specs.Prelude.{◌≡◌};
ghost use Rattle.tables.specs.Fresh.{fresh};

use crate::place::Place;
use crate::tables::Tables;
use config::Config;
use record::Clock;

impl Tables {
    /// The tables of a board that has just been built.
    pub fn fresh(config: &Config, first_serial: u32) -> Tables
        ensures { result ≡ fresh config.now first_serial }
    {
        Tables {
            config: *config,
            got: Clock::ZERO,
            committed: Clock::ZERO,
            acknowledged: Clock::ZERO,
            next: first_serial as u64,
            places: [Place::Free; 8],
            locks: [None; 64],
        }
    }
}
