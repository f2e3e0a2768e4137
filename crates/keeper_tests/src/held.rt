//! Keepers held by value in a struct, as firmware may: what is known of the keeper is known of the struct.
ghost use Rattle.std.specs.Prelude.{◌≡◌, length};
ghost use Rattle.keeper.specs.Tables.{table_rows, table_capacity};
ghost use Rattle.keeper.specs.Areas.{area_rows, area_capacity};
ghost use Rattle.keeper.specs.Logs.{admitted, appended};

use crate::tests::row;
use keeper::{LogKeeper, RecordArea, RowTable};
use record::{Fault, Row};

/// A table, and how often it was written to.
#[derive(Drop)]
struct Shelf<'a> {
    log: RowTable<'a>,
    calls: u32,
}

impl Shelf<'_> {
    fn add(&mut self, row: &Row) -> Result<(), Fault>
        ensures answer { result ≡ admitted row.now (length (table_rows self.old.log.used self.old.log.rows.now)) (table_capacity self.old.log.rows.now) }
        ensures after { table_rows self.new.log.used self.new.log.rows.now ≡ appended result row.now (table_rows self.old.log.used self.old.log.rows.now) }
    {
        self.calls = self.calls.saturating_add(1);
        self.log.append(row)
    }
}

/// The same of an area.
#[derive(Drop)]
struct Drawer<'a> {
    log: RecordArea<'a>,
    calls: u32,
}

impl Drawer<'_> {
    fn add(&mut self, row: &Row) -> Result<(), Fault>
        ensures answer { result ≡ admitted row.now (length (area_rows self.old.log.used self.old.log.bytes.now)) (area_capacity self.old.log.bytes.now) }
        ensures after { area_rows self.new.log.used self.new.log.bytes.now ≡ appended result row.now (area_rows self.old.log.used self.old.log.bytes.now) }
    {
        self.calls = self.calls.saturating_add(1);
        self.log.append(row)
    }
}

#[test]
fn a_struct_holds_a_table(rt: HostRuntime) {
    let mut rows = [Row::ZERO; 2];
    let mut shelf = Shelf {
        log: RowTable::over(&mut rows),
        calls: 0,
    };
    assert_eq!(rt; shelf.add(&row(1)), Ok(()));
    assert_eq!(rt; shelf.add(&row(2)), Ok(()));
    assert!(rt; shelf.add(&row(3)).is_err());
    assert!(rt; shelf.log.row_at(1) == row(2));
    assert_eq!(rt; shelf.calls, 3);
}

#[test]
fn a_struct_holds_an_area(rt: HostRuntime) {
    let mut bytes = [255; 64];
    let mut drawer = Drawer {
        log: RecordArea::over(&mut bytes),
        calls: 0,
    };
    assert_eq!(rt; drawer.add(&row(1)), Ok(()));
    assert!(rt; drawer.add(&row(2)).is_err());
    assert!(rt; drawer.log.row_at(0) == row(1));
    assert_eq!(rt; drawer.calls, 2);
}
