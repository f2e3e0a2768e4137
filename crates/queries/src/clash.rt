//! Rows that stand in the way of another.
ghost use Rattle.std.specs.Prelude.{◌≡◌, not};
ghost use Rattle.config.specs.Objects.{clashes};
ghost use Rattle.std.specs.List.{list_all};

use crate::rows::rows_of;
use config::Config;
use keeper::LogKeeper;
use record::Row;

/// Whether no row of the log clashes with this one.
fn is_apart<K: LogKeeper>(log: &K, config: &Config, row: &Row) -> bool
    ensures { result ≡ list_all (λ other. not (clashes config.now row.now other)) (K.rows log.now) }
{
    rows_of(log).all(|other| !config.clashes(row, &other))
}

/// Whether a row of the log clashes with this one: it is not covered by this one's start clock, and writes one of our objects that this one writes.
pub fn has_clash<K: LogKeeper>(log: &K, config: &Config, row: &Row) -> bool
    ensures { result ≡ not (list_all (λ other. not (clashes config.now row.now other)) (K.rows log.now)) }
{
    !is_apart(log, config, row)
}
