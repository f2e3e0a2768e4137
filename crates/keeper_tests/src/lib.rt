//! The keepers on examples.
#![tactic(auto)]

ghost use Rattle.std.specs.Prelude.{◌≡◌, if◌then◌else◌};
ghost use Rattle.record.specs.Layout.{bytes_of, written};
ghost use Rattle.keeper.specs.Logs.{row_record};

use keeper::{LogKeeper, RecordArea};
use record::Row;

#[cfg(test)]
mod held;
#[cfg(test)]
mod tests;

/// Lends bytes to a fresh log, which takes the row and is let go: the record is then found in the bytes, if the row was taken.
pub(crate) fn keeps(bytes: &mut [u8], row: &Row) -> bool
    ensures { bytes.new ≡ (if result then written bytes.old 0 (bytes_of (row_record row.now)) else bytes.old) }
{
    let mut log = RecordArea::over(bytes);
    log.append(row).is_ok()
}
