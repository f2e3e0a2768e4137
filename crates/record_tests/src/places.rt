//! Every way in which bytes break a rule, with the place that is reported; and the bytes of one record, written out.
use record::{Clock, Fault, NOBODY, Record, RecordKind, Row, Update};
use std::process::Abort;

/// ACK from board 1 to board 0 for number 5.
const ACK: Record = Record {
    kind: RecordKind::Ack,
    sender: 1,
    receiver: 0,
    detail: 0,
    serial: 0,
    number: 5,
    start: Clock::ZERO,
    updates: [Update::NONE; 4],
};

/// A row of board 1 with one update, on its way to board 0.
const PROPAGATE: Record = Record {
    kind: RecordKind::Propagate,
    sender: 1,
    receiver: 0,
    detail: 1,
    serial: 9,
    number: 5,
    start: Clock {
        entries: [4096, 0, 1, 0, 0, 0, 0, 4096],
    },
    updates: [
        Update {
            object: 65535,
            element: 65535,
            operand: -2147483648,
        },
        Update::NONE,
        Update::NONE,
        Update::NONE,
    ],
};

/// With `value` in byte `at`, the bytes are denied at `place`.
fn damaged(rt: &impl Abort, record: &Record, at: usize, value: u8, place: u32) {
    let mut bytes = record.to_bytes();
    assert!(rt; at < 64);
    bytes[at] = value;
    assert_eq!(rt; Record::decode(&bytes).err(), Some(Fault::Record(place)));
}

#[test]
fn the_bytes_of_an_ack(rt: HostRuntime) {
    let mut bytes = [0; 64];
    bytes[0] = 0x05;
    bytes[1] = 0x01;
    bytes[8] = 0x05;
    assert!(rt; ACK.to_bytes() == bytes);
    assert!(rt; Record::decode(&bytes).ok() == Some(ACK));
}

/// The byte of an ACK that is changed, to what, and the place that is reported.
const HEADS: [(usize, u8, u32); 13] = [
    (0, 0, 0),
    (0, 7, 0),
    (0, 9, 0),
    (0, 255, 0),
    (1, 8, 1),
    (2, 8, 2),
    (2, 1, 2),
    (2, 255, 2),
    (3, 1, 3),
    (7, 1, 4),
    (9, 16, 8),
    (10, 1, 10),
    (11, 1, 10),
];

#[test]
fn heads(rt: HostRuntime) {
    for (at, value, place) in HEADS {
        damaged(&rt, &ACK, at, value, place);
    }
}

#[test]
fn a_row_is_for_nobody(rt: HostRuntime) {
    for receiver in 0..255u8 {
        let row = Row::from(PROPAGATE).to_record(RecordKind::Row, receiver);
        assert_eq!(rt; row.check().err(), Some(Fault::Record(2)));
    }
    assert!(rt;
        Row::from(PROPAGATE)
            .to_record(RecordKind::Row, NOBODY)
            .check()
            .is_ok()
    );
}

#[test]
fn clocks(rt: HostRuntime) {
    for j in 0..8usize {
        let at = 12 + 2 * j;
        let place = 12 + 2 * (j as u32);
        damaged(&rt, &ACK, at, 1, place);
        damaged(&rt, &ACK, at + 1, 1, place);
        damaged(&rt, &PROPAGATE, at + 1, 17, place);
    }
    assert!(rt; PROPAGATE.check().is_ok());
}

#[test]
fn updates(rt: HostRuntime) {
    for i in 0..4usize {
        for byte in 0..8usize {
            let at = 28 + 8 * i + byte;
            let part = if byte < 2 {
                0
            } else if byte < 4 {
                2
            } else {
                4
            };
            let place = 28 + 8 * (i as u32) + part;
            damaged(&rt, &ACK, at, 128, place);
            if i > 0 {
                damaged(&rt, &PROPAGATE, at, 1, place);
            }
        }
    }
}

#[test]
fn tails(rt: HostRuntime) {
    for at in 60..64usize {
        damaged(&rt, &ACK, at, 1, 60);
        damaged(&rt, &PROPAGATE, at, 255, 60);
    }
}

#[test]
fn lengths(rt: HostRuntime) {
    let bytes = [5u8; 130];
    for length in 0..130usize {
        if length != 64 {
            assert_eq!(rt;
                Record::decode(&bytes[..length]).err(),
                Some(Fault::Record(64))
            );
        }
    }
}

/// Bytes of an ACK that break a rule when they are 255, in order.
const SPOILT: [usize; 10] = [0, 1, 2, 3, 4, 10, 12, 28, 44, 60];

#[test]
fn the_first_of_two_offences_is_reported(rt: HostRuntime) {
    for at in SPOILT {
        for later in SPOILT {
            let mut bytes = ACK.to_bytes();
            assert!(rt; at < 64 && later < 64);
            bytes[later] = 255;
            bytes[at] = 255;
            let first = at.min(later);
            assert_eq!(rt;
                Record::decode(&bytes).err(),
                Some(Fault::Record(first as u32))
            );
        }
    }
}
