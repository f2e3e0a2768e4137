//! A log kept as ROW records in an area of bytes.
ghost use Rattle.std.specs.Prelude.{◌≡◌, ◌+◌, ◌*◌, ◌<◌, ◌≤◌, [], ◌∷◌, ◌++◌, length, Ok, is_ok, if◌then◌else◌};
ghost use Rattle.record.specs.Codec.{checked};
ghost use Rattle.record.specs.Layout.{bytes_of, written};
ghost use Rattle.keeper.specs.Logs.{row_record, admitted, appended};
ghost use Rattle.keeper.specs.Areas.{slot_count, slot_row, all_free, area_rows, area_capacity, area_ready, area_within, area_sized};

use crate::admit::{admit, fits};
use crate::log::LogKeeper;
use record::{Fault, NOBODY, Record, RecordKind, Row};

/// The bytes of a slot: those of a record.
const SLOT: usize = 64;

/// What stands in each byte of a slot that is free.
const FREE: u8 = 255;

/// The row of the record in a slot; the row of zeros where no record stands.
fn slot_row(slot: &[u8; SLOT]) -> Row
    ensures { result ≡ slot_row slot.now }
{
    Record::decode(slot).map_or(Row::ZERO, Row::from)
}

/// An area of 1 to 4,096 slots of 64 bytes that is lent to the log: a ROW record in each of the first `used`,
/// and 255 in every byte of the others. The memory is the firmware's, so that the count stands beside it.
#[derive(Drop)]
pub struct RecordArea<'a> {
    bytes: &'a mut [u8],
    used: usize,
    ghost held: { 64 * used ≤ length bytes.now },
}

impl<'a> RecordArea<'a> {
    /// An empty log over the area, whatever its bytes are.
    pub fn over(bytes: &'a mut [u8]) -> RecordArea<'a>
        ensures memory { result.bytes ≡ bytes.entry }
        ensures unused { result.used ≡ 0 }
        ensures empty { area_rows result.used result.bytes.now ≡ [] }
    {
        RecordArea { bytes, used: 0 }
    }

    /// Whether no slot holds anything.
    fn is_free(&self) -> bool
        ensures { result ≡ all_free self.now.bytes.now }
    {
        self.bytes.iter().all(|byte| *byte == FREE)
    }

    /// Puts the ROW record of a row into the slot behind those that are used.
    /// Its first byte is written last: a record counts only once that stands.
    fn put(&mut self, row: &Row)
        requires free { self.old.used < slot_count self.old.bytes.now }
        requires sound { checked (row_record row.now) ≡ Ok tt }
        ensures memory { self.new.bytes.ghost_name ≡ self.old.bytes.ghost_name }
        ensures size { length self.new.bytes.now ≡ length self.old.bytes.now }
        ensures stored { self.new.bytes.now ≡ written self.old.bytes.now (64 * self.old.used) (bytes_of (row_record row.now)) }
        ensures after { area_rows self.new.used self.new.bytes.now ≡ area_rows self.old.used self.old.bytes.now ++ row.now ∷ [] }
    {
        let start = SLOT * self.used;
        let record = row.to_record(RecordKind::Row, NOBODY).to_bytes();
        let slot = &mut self.bytes[start..start + SLOT];
        slot[1..].copy_from_slice(&record[1..]);
        slot[0] = record[0];
        self.used += 1;
    }
}

impl LogKeeper for RecordArea<'_> {
    ghost rows = { λ a. area_rows a.used a.bytes.now };

    ghost capacity = { λ a. area_capacity a.bytes.now };

    ghost ready = { λ a. area_ready a.bytes.now };

    ghost within = { λ a. area_within a.used a.bytes.now };

    ghost sized = { λ a. area_sized a.bytes.now };

    fn fit(&self) -> bool {
        let (slots, rest) = self.bytes.as_chunks::<SLOT>();
        rest.is_empty() && fits(slots.len()) && self.is_free()
    }

    #[tactic(auto, using(crate::proofs::Slots::length_area_rows))]
    fn count(&self) -> usize
        ensures answer { result ≡ length (area_rows self.now.used self.now.bytes.now) }
        ensures counted { area_rows result self.now.bytes.now ≡ area_rows self.now.used self.now.bytes.now }
    {
        self.used
    }

    fn row_at(&self, place: usize) -> Row {
        let (slots, _) = self.bytes.as_chunks::<SLOT>();
        slots[..self.used].get(place).map_or(Row::ZERO, slot_row)
    }

    #[tactic(auto, using(crate::proofs::Slots::length_area_rows))]
    fn append(&mut self, row: &Row) -> Result<(), Fault>
        ensures capacity { area_capacity self.new.bytes.now ≡ area_capacity self.old.bytes.now }
        ensures answer { result ≡ admitted row.now (length (area_rows self.old.used self.old.bytes.now)) (area_capacity self.old.bytes.now) }
        ensures after { area_rows self.new.used self.new.bytes.now ≡ appended result row.now (area_rows self.old.used self.old.bytes.now) }
        ensures stored { self.new.bytes.now ≡ (if is_ok result then written self.old.bytes.now (64 * length (area_rows self.old.used self.old.bytes.now)) (bytes_of (row_record row.now)) else self.old.bytes.now) }
        ensures memory { self.new.bytes.ghost_name ≡ self.old.bytes.ghost_name }
    {
        admit(row, self.used, self.bytes.len() / SLOT)?;
        self.put(row);
        Ok(())
    }
}
