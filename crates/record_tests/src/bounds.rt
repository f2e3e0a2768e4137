//! Every row of the table of kinds, at both ends of each range and just outside.
use crate::samples::{denied, least, taken};
use record::{Bounds, KINDS, KindRules, Record};
use std::process::Abort;
use std::test::Fail;

fn with_detail(record: &Record, detail: u32) -> Record {
    Record {
        detail: (detail & 0xff) as u8,
        ..*record
    }
}

fn with_serial(record: &Record, serial: u32) -> Record {
    Record { serial, ..*record }
}

fn with_number(record: &Record, number: u32) -> Record {
    Record {
        number: (number & 0xffff) as u16,
        ..*record
    }
}

/// The record is taken with this number in a field, or denied at the field's place.
fn tried(rt: &impl Abort, record: &Record, within: bool, place: u32) -> Result<(), Fail> {
    if within {
        taken(rt, record)
    } else {
        denied(rt, record, place)
    }
}

/// Both ends of a range, and the numbers next to it that the field can hold.
fn ends_of(bounds: Bounds, highest: u32) -> [(u32, bool); 4] {
    let low = bounds.least.checked_sub(1);
    let high = (bounds.most < highest).then_some(bounds.most.saturating_add(1));
    [
        (bounds.least, true),
        (bounds.most, true),
        (low.unwrap_or(bounds.least), low.is_none()),
        (high.unwrap_or(bounds.most), high.is_none()),
    ]
}

#[test]
fn byte_3(rt: HostRuntime) -> Result<(), Fail> {
    for rules in &KINDS {
        for (n, within) in ends_of(rules.detail, 255) {
            tried(&rt, &with_detail(&least(rules), n), within, 3)?;
        }
    }
    Ok(())
}

#[test]
fn serials(rt: HostRuntime) -> Result<(), Fail> {
    for rules in &KINDS {
        for (n, within) in ends_of(rules.serial, u32::MAX) {
            tried(&rt, &with_serial(&least(rules), n), within, 4)?;
        }
    }
    Ok(())
}

#[test]
fn numbers(rt: HostRuntime) -> Result<(), Fail> {
    for rules in &KINDS {
        for (n, within) in ends_of(rules.number, 65535) {
            tried(&rt, &with_number(&least(rules), n), within, 8)?;
        }
    }
    Ok(())
}

/// Byte 0, then the ends of byte 3, serial and number, as the documents have them.
const TABLE: [[u32; 7]; 7] = [
    [1, 1, 4, 1, u32::MAX, 0, 0],
    [2, 0, 1, 1, u32::MAX, 0, 0],
    [3, 0, 0, 1, u32::MAX, 0, 0],
    [4, 1, 4, 1, u32::MAX, 1, 4096],
    [5, 0, 0, 0, 0, 1, 4096],
    [6, 0, 0, 0, 0, 1, 4096],
    [8, 1, 4, 1, u32::MAX, 1, 4096],
];

fn ends(rules: &KindRules) -> [u32; 7] {
    [
        rules.kind as u32,
        rules.detail.least,
        rules.detail.most,
        rules.serial.least,
        rules.serial.most,
        rules.number.least,
        rules.number.most,
    ]
}

#[test]
fn the_table_is_the_one_that_is_written_down(rt: HostRuntime) {
    for (rules, written) in KINDS.iter().zip(&TABLE) {
        assert!(rt; ends(rules) == *written);
    }
}
