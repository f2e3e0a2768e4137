//! Both keepers on memory of every size, filled to the end and past it, with rows that break a rule.
use crate::keeps;
use keeper::{LogKeeper, RecordArea, RowTable};
use record::{Clock, Fault, NOBODY, RecordKind, Row, Update};
use std::process::Abort;
use std::test::Fail;

/// A row that breaks no rule; another serial makes another row.
pub(crate) fn row(serial: u32) -> Row {
    Row {
        home: 7,
        serial,
        number: 4096,
        start: Clock {
            entries: [0, 4096, 1, 2, 3, 4, 5, 6],
        },
        count: 2,
        updates: [
            Update {
                object: 65535,
                element: 3,
                operand: -1,
            },
            Update {
                object: 0,
                element: 65535,
                operand: i32::MIN,
            },
            Update::NONE,
            Update::NONE,
        ],
    }
}

/// Whether the log has the rows of the serials 1 to `last`, and no other.
fn holds<K: LogKeeper>(log: &K, last: u16) -> bool {
    let count = last as usize;
    (0..last).all(|place| log.row_at(place as usize) == row(place as u32 + 1))
        && log.count() == count
        && log.row_at(count) == Row::ZERO
        && log.row_at(usize::MAX) == Row::ZERO
}

/// What a panel shows of a fault: its layer, its number and its place.
fn shown(fault: Fault) -> (u8, u8, u32) {
    (fault.layer(), fault.number(), fault.place())
}

/// Denies two bad rows, whether or not there is room.
fn denies_bad_rows<K: LogKeeper>(rt: &impl Abort, log: &mut K) {
    let no_serial = Row {
        serial: 0,
        ..row(1)
    };
    assert_eq!(rt; log.append(&no_serial).map_err(shown), Err((3, 3, 4)));
    let no_home = Row { home: 8, ..row(1) };
    assert_eq!(rt; log.append(&no_home).map_err(shown), Err((3, 3, 1)));
}

/// Fills a fresh log, and tries one row more.
fn fills<K: LogKeeper>(rt: &impl Abort, log: &mut K, capacity: u16) {
    assert!(rt; holds(log, 0));
    denies_bad_rows(rt, log);
    assert!(rt; holds(log, 0));
    for place in 0..capacity {
        assert_eq!(rt; log.append(&row(place as u32 + 1)), Ok(()));
    }
    assert!(rt; holds(log, capacity));
    let past = log.append(&row(capacity as u32 + 1));
    assert_eq!(rt; past.map_err(shown), Err((4, 11, 0)));
    denies_bad_rows(rt, log);
    assert!(rt; holds(log, capacity));
}

#[test]
fn a_table_is_fit_with_1_to_4096_rows(rt: HostRuntime) -> Result<(), Fail> {
    for (rows, fit) in [(0, false), (1, true), (4096, true), (4097, false)] {
        let mut table = vec![in rt.alloc(); Row::ZERO; rows]?;
        assert_eq!(rt; RowTable::over(table.as_mut_slice()).fit(), fit);
    }
    Ok(())
}

#[test]
fn an_area_is_fit_with_1_to_4096_slots(rt: HostRuntime) -> Result<(), Fail> {
    for (bytes, fit) in [
        (0, false),
        (63, false),
        (64, true),
        (65, false),
        (262144, true),
        (262208, false),
    ] {
        let mut area = vec![in rt.alloc(); 255; bytes]?;
        assert_eq!(rt; RecordArea::over(area.as_mut_slice()).fit(), fit);
    }
    Ok(())
}

#[test]
fn an_area_is_fit_if_every_byte_is_255(rt: HostRuntime) {
    for (place, byte) in [(0, 0), (0, 8), (64, 254), (100, 0), (191, 127)] {
        let mut area = [255; 192];
        area[place] = byte;
        assert!(rt; !RecordArea::over(&mut area).fit());
    }
    assert!(rt; RecordArea::over(&mut [255; 192]).fit());
}

#[test]
fn a_table_takes_as_many_rows_as_it_has(rt: HostRuntime) -> Result<(), Fail> {
    for capacity in [1, 3, 4096] {
        let mut table = vec![in rt.alloc(); row(9); capacity as usize]?;
        fills(&rt, &mut RowTable::over(table.as_mut_slice()), capacity);
    }
    Ok(())
}

#[test]
fn an_area_takes_as_many_rows_as_it_has_slots(rt: HostRuntime) -> Result<(), Fail> {
    for capacity in [1, 3, 4096] {
        let mut area = vec![in rt.alloc(); 255; 64 * capacity as usize]?;
        fills(&rt, &mut RecordArea::over(area.as_mut_slice()), capacity);
    }
    Ok(())
}

#[test]
fn an_area_holds_records_and_255(rt: HostRuntime) {
    let record = row(5).to_record(RecordKind::Row, NOBODY).to_bytes();
    let mut area = [255; 128];
    assert!(rt; keeps(&mut area, &row(5)));
    assert!(rt; area[..64] == record[..]);
    assert!(rt; area[64..] == [255; 64][..]);
    assert!(rt; !keeps(&mut area, &Row::ZERO));
}
