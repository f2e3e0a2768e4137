//! The rows of a log, one after the other.
ghost use Rattle.std.specs.Prelude.{◌≡◌, length};
ghost use Rattle.std.specs.Iterator.{YieldsFirst, item_count};

use keeper::LogKeeper;
use record::Row;
use std::marker::Model;

/// The rows of a log from a place on, seen as the list of those that are left. A keeper is asked once how many it has: nothing says that
/// this is cheap.
#[derive(Drop)]
pub(crate) struct Rows<'a, K: LogKeeper> {
    log: &'a K,
    place: usize,
    end: usize,
    ghost counted: { end ≡ length (K.rows log.now) },
}

impl<'a, K: LogKeeper> Model for Rows<'a, K> {
    ghost use Rattle.std.specs.Prelude.{List, drop};
    ghost use Rattle.record.specs.declared.row.Row.{Row};

    ghost Value = { List Row };

    ghost view = { λ it. drop it.place (K.rows it.log.now) };
}

/// All rows of a log, from the oldest on.
pub(crate) fn rows_of<K: LogKeeper>(log: &K) -> Rows<'_, K>
    ensures { result ≡ K.rows log.now }
{
    Rows {
        log,
        place: 0,
        end: log.count(),
    }
}

impl<'a, K: LogKeeper> Iterator for Rows<'a, K> {
    type Item = Row;

    ghost next_gives = { YieldsFirst (λ rows. rows) };

    ghost remaining = { item_count (λ rows. rows) };

    fn next(&mut self) -> Option<Row> {
        let place = self.place;
        if place < self.end {
            self.place = place + 1;
            return Some(self.log.row_at(place));
        }
        None
    }
}
