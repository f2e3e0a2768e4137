//! What a board asks of the keeper of its log.
ghost use Rattle.std.specs.Prelude.{◌≡◌, ℕ, ◌≤◌, Bool, true, List, length, slice_index_or};
ghost use Rattle.record.specs.declared.row.Row.{Row};
ghost use Rattle.record.specs.Rows.{zero_row};
ghost use Rattle.keeper.specs.Logs.{admitted, appended};

use record::{Fault, Row};

/// A log of committed rows. Its meaning is the list of its rows and a capacity; `append` alone changes them.
pub trait LogKeeper {
    /// The rows, in the order in which they were appended.
    ghost rows: { Self → List Row };

    /// How many rows there can be.
    ghost capacity: { Self → ℕ };

    /// Whether the memory is one that a log may begin on.
    ghost ready: { Self → Bool };

    /// The rows are never more than the capacity.
    ghost within: { (log : Self) → length (rows log) ≤ capacity log };

    /// A log that may begin has a capacity of 1 to 4,096.
    ghost sized: { (log : Self) → ready log ≡ true → (1 ≤ capacity log) × (capacity log ≤ 4096) };

    /// Whether the memory is fit to begin on.
    fn fit(&self) -> bool
        ensures answer { result ≡ ready self.now };

    /// How many rows there are.
    fn count(&self) -> usize
        ensures answer { result ≡ length (rows self.now) };

    /// The row at this place, counted from 0; past the end, the row of zeros.
    fn row_at(&self, place: usize) -> Row
        ensures answer { result ≡ slice_index_or (rows self.now) place zero_row };

    /// Puts the row after the others. A row whose ROW record breaks a rule is denied with 3, and then any row, where the log
    /// has reached its capacity, with 11; nothing has changed then.
    fn append(&mut self, row: &Row) -> Result<(), Fault>
        ensures capacity { capacity self.new ≡ capacity self.old }
        ensures answer { result ≡ admitted row.now (length (rows self.old)) (capacity self.old) }
        ensures after { rows self.new ≡ appended result row.now (rows self.old) };
}
