//! A log kept as rows in a table.
ghost use Rattle.std.specs.Prelude.{◌≡◌, ◌≤◌, [], length};
ghost use Rattle.keeper.specs.Tables.{table_rows, table_capacity, table_ready, table_within, table_sized};

use crate::admit::{admit, fits};
use crate::log::LogKeeper;
use record::{Fault, Row};

/// A table of 1 to 4,096 rows that is lent to the log, which has the first `used` of them: the memory is the firmware's, so that
/// the count stands beside it.
#[derive(Drop)]
pub struct RowTable<'a> {
    rows: &'a mut [Row],
    used: usize,
    ghost held: { used ≤ length rows.now },
}

impl<'a> RowTable<'a> {
    /// An empty log over the table, whatever its rows hold.
    pub fn over(rows: &'a mut [Row]) -> RowTable<'a>
        ensures memory { result.rows ≡ rows.entry }
        ensures unused { result.used ≡ 0 }
        ensures empty { table_rows result.used result.rows.now ≡ [] }
    {
        RowTable { rows, used: 0 }
    }
}

impl LogKeeper for RowTable<'_> {
    ghost rows = { λ t. table_rows t.used t.rows.now };

    ghost capacity = { λ t. table_capacity t.rows.now };

    ghost ready = { λ t. table_ready t.rows.now };

    ghost within = { λ t. table_within t.used t.rows.now };

    ghost sized = { λ t. table_sized t.rows.now };

    fn fit(&self) -> bool {
        fits(self.rows.len())
    }

    fn count(&self) -> usize
        ensures answer { result ≡ length (table_rows self.now.used self.now.rows.now) }
        ensures counted { table_rows result self.now.rows.now ≡ table_rows self.now.used self.now.rows.now }
    {
        self.used
    }

    fn row_at(&self, place: usize) -> Row {
        self.rows[..self.used]
            .get(place)
            .map_or(Row::ZERO, |row| *row)
    }

    fn append(&mut self, row: &Row) -> Result<(), Fault> {
        admit(row, self.used, self.rows.len())?;
        self.rows[self.used] = *row;
        self.used += 1;
        Ok(())
    }
}
