//! A table and an area, driven with the same rows.
use crate::difference::{Difference, Verdict};
use crate::random::Random;
use crate::samples::Sample;
use crate::tally::Tally;
use keeper::{LogKeeper, RecordArea, RowTable};
use record::{Fault, Row};
use std::io;

/// The most rows of a log here.
const MOST: usize = 64;

/// The first place, from 0 to that behind the end, at which the logs have different rows.
fn first_apart<T: LogKeeper, A: LogKeeper>(table: &T, area: &A) -> Option<usize> {
    let end = table.count().min(MOST);
    (0..=end).find(|place| table.row_at(*place) != area.row_at(*place))
}

/// Appends the sample to both logs, which have `kept` rows, and looks for a difference in what they answer and what they hold.
fn append<T: LogKeeper, A: LogKeeper>(
    table: &mut T,
    area: &mut A,
    sample: &Sample,
    kept: usize,
    expected: Result<(), Fault>,
) -> Option<Difference> {
    let by_table = table.append(&sample.row);
    let by_area = area.append(&sample.row);
    if by_table != expected || by_area != expected {
        return Some(Difference::Answer {
            expected: Verdict(expected),
            table: Verdict(by_table),
            area: Verdict(by_area),
        });
    }
    let after = kept.saturating_add(expected.is_ok() as usize);
    if table.count() != after || area.count() != after {
        return Some(Difference::Count {
            expected: after,
            table: table.count(),
            area: area.count(),
        });
    }
    if expected.is_ok() && area.row_at(kept) != sample.row {
        return Some(Difference::Last);
    }
    first_apart(table, area).map(|place| Difference::Row { place })
}

/// Appends samples to a fresh table and a fresh area, past the time when they are full, and prints where they differ.
pub fn drive(
    rt: &impl Print,
    random: &mut Random,
    capacity: usize,
    tally: &mut Tally,
) -> io::Result<()> {
    let capacity = capacity.min(MOST);
    let mut rows = [Row::ZERO; MOST];
    let mut bytes = [255; 64 * MOST];
    let mut table = RowTable::over(&mut rows[..capacity]);
    let mut area = RecordArea::over(&mut bytes[..64 * capacity]);
    let mut kept: usize = 0;
    for _ in 0..3 * capacity + 12 {
        let sample = Sample::random(random);
        let expected = sample.answer(kept < capacity);
        tally.note(expected);
        if let Some(difference) = append(&mut table, &mut area, &sample, kept, expected) {
            tally.differ();
            let number = tally.appends;
            println!(rt; "capacity {capacity}, append {number}: {difference}")?;
        }
        kept = kept.saturating_add(expected.is_ok() as usize);
    }
    Ok(())
}
