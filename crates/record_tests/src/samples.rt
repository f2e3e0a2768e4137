//! Records to start from, and what is expected of them.
use record::{Clock, Fault, KindRules, NOBODY, Record, RecordKind, Update};
use std::process::Abort;
use std::test::Fail;

/// A well-formed record of a kind, from board 1 to board 0, with the least of everything.
pub(crate) fn least(rules: &KindRules) -> Record {
    Record {
        kind: rules.kind,
        sender: 1,
        receiver: if rules.kind == RecordKind::Row {
            NOBODY
        } else {
            0
        },
        detail: (rules.detail.least & 0xff) as u8,
        serial: rules.serial.least,
        number: (rules.number.least & 0xffff) as u16,
        start: Clock::ZERO,
        updates: [Update::NONE; 4],
    }
}

/// The record is put into bytes and taken out again as it was.
pub(crate) fn taken(rt: &impl Abort, record: &Record) -> Result<(), Fail> {
    assert!(rt; record.check().is_ok());
    let bytes = record.encode().ok().ok_or("a good record is denied")?;
    assert!(rt; bytes == record.to_bytes());
    let back = Record::decode(&bytes).ok().ok_or("its bytes are denied")?;
    assert!(rt; back == *record);
    Ok(())
}

/// The record breaks a rule at this place, as a value and as bytes.
pub(crate) fn denied(rt: &impl Abort, record: &Record, place: u32) -> Result<(), Fail> {
    assert_eq!(rt; record.check().err(), Some(Fault::Record(place)));
    assert_eq!(rt; record.encode().err(), Some(Fault::Record(place)));
    assert_eq!(rt;
        Record::decode(&record.to_bytes()).err(),
        Some(Fault::Record(place))
    );
    Ok(())
}
