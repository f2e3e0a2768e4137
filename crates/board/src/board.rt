//! A board: its tables, and its log in any keeper.
ghost use Rattle.std.specs.Prelude.{◌≡◌, ◌<◌, ◌≤◌, Ok};
ghost use Rattle.tables.specs.Fresh.{fresh};
ghost use Rattle.board.specs.Builds.{build_answer};

use config::Config;
use keeper::LogKeeper;
use record::{Denial, Fault};
use tables::Tables;

/// One board of a group. Its group has at most eight boards, and its own number is one of them, so that there are at most seven
/// others to write to.
#[derive(Drop)]
pub struct Board<K: LogKeeper> {
    pub(crate) log: K,
    pub(crate) tables: Tables,
    ghost sized: { (tables.config.boards ≤ 8) × (tables.config.own < tables.config.boards) },
}

impl<K: LogKeeper> Board<K> {
    /// Whether a board can be built: first the keeper is asked, whose memory must be fit and whose log must be empty, and then the numbers.
    pub fn check(log: &K, config: &Config, first_serial: u32) -> Result<(), Fault>
        ensures { result ≡ build_answer (K.ready log.now) (K.rows log.now) config.now first_serial }
    {
        if log.fit() && log.count() == 0 {
            config.check(first_serial)
        } else {
            Err(Fault::Keeper(Denial::Build))
        }
    }

    /// A fresh board, from what was checked.
    pub fn make(log: K, config: &Config, first_serial: u32) -> Board<K>
        requires { build_answer (K.ready log) (K.rows log) config.now first_serial ≡ Ok tt }
        ensures log { result.log ≡ log }
        ensures tables { result.tables ≡ fresh config.now first_serial }
    {
        let tables = Tables::fresh(config, first_serial);
        Board { log, tables }
    }
}
