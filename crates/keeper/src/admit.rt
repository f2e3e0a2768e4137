//! What every keeper asks of its memory, and of a row before it takes it.
ghost use Rattle.std.specs.Prelude.{◌≡◌, ◌<◌, Ok, OnOk};
ghost use Rattle.record.specs.Codec.{checked};
ghost use Rattle.keeper.specs.Logs.{fitting, row_record, admitted};

use record::{Denial, Fault, NOBODY, RecordKind, Row};

/// The most rows that a log is made for.
const MOST_ROWS: usize = 4096;

/// Whether a log may be made for so many rows.
pub(crate) fn fits(rows: usize) -> bool
    ensures { result ≡ fitting rows }
{
    (1..=MOST_ROWS).contains(&rows)
}

/// Denies a row that breaks a rule, and then any row where `count` has reached the capacity.
pub(crate) fn admit(row: &Row, count: usize, capacity: usize) -> Result<(), Fault>
    ensures answer { result ≡ admitted row.now count capacity }
    ensures free { OnOk result (count < capacity) }
    ensures sound { OnOk result (checked (row_record row.now) ≡ Ok tt) }
{
    row.to_record(RecordKind::Row, NOBODY).check()?;
    if count < capacity {
        Ok(())
    } else {
        Err(Fault::Keeper(Denial::LogFull))
    }
}
