//! The long fork: each board sees its own change first, and both see both in the end.
use crate::play::{OURS, THEIRS, build, change, member, value};
use crate::wire::{Buffer, FRESH, has, plain, row};
use board::Board;
use keeper::{LogKeeper, RecordArea, RowTable};
use record::{Fault, RecordKind, Row};
use std::test::Fail;

/// Whether a board shows these words of the two objects.
fn shows<K: LogKeeper>(
    board: &mut Board<K>,
    ours: Option<u32>,
    theirs: Option<u32>,
) -> Result<bool, Fault> {
    Ok(value(board, OURS)? == ours && value(board, THEIRS)? == theirs)
}

/// Changes an object on its preferred board, which takes effect there at once and is told to the other.
fn changes<K: LogKeeper>(
    board: &mut Board<K>,
    object: u16,
    own: u8,
    other: u8,
    out: &mut Buffer,
) -> Result<bool, Fault> {
    let answer = change(board, object, 1, out)?;
    let propagate = row(own, 1, 1, object, 1).to_record(RecordKind::Propagate, other);
    Ok(answer == (1, 1, 1) && has(out, &[propagate]))
}

/// Brings the row of `home` to the other board, the ACK back, and the DURABLE after that.
fn spreads<K: LogKeeper>(
    home: &mut Board<K>,
    other: &mut Board<K>,
    own: u8,
    to: u8,
    propagate: &[u8],
) -> Result<bool, Fault> {
    let mut ack = FRESH;
    let mut durable = FRESH;
    let mut nothing = FRESH;
    let acks = other.deliver(propagate, &mut ack)?;
    let durables = home.deliver(&ack[0..64], &mut durable)?;
    let rest = other.deliver(&durable[0..64], &mut nothing)?;
    let counts = acks == 1 && durables == 1 && rest == 0;
    let records = has(&ack, &[plain(RecordKind::Ack, to, own, 0, 0, 1)])
        && has(&durable, &[plain(RecordKind::Durable, own, to, 0, 0, 1)])
        && has(&nothing, &[]);
    Ok(counts && records)
}

/// Whether each board shows its own change, and this of the other's.
fn both_show<K: LogKeeper>(
    first: &mut Board<K>,
    second: &mut Board<K>,
    other: Option<u32>,
) -> Result<bool, Fault> {
    let here = shows(first, Some(1), other)?;
    let there = shows(second, other, Some(1))?;
    Ok(here && there)
}

/// Each board changes its own object and sees that alone, until both rows are brought.
fn forks<K: LogKeeper>(first: &mut Board<K>, second: &mut Board<K>) -> Result<bool, Fault> {
    let mut from_first = FRESH;
    let mut from_second = FRESH;
    let here = changes(first, OURS, 0, 1, &mut from_first)?;
    let there = changes(second, THEIRS, 1, 0, &mut from_second)?;
    let apart = both_show(first, second, None)?;
    let to_second = spreads(first, second, 0, 1, &from_first[0..64])?;
    let to_first = spreads(second, first, 1, 0, &from_second[0..64])?;
    let joined = both_show(first, second, Some(1))?;
    Ok(here && there && apart && to_second && to_first && joined)
}

fn long_fork<K: LogKeeper + Drop>(first: K, second: K) -> Result<bool, Fault> {
    let mut first = build(first, &member(0, 2))?;
    let mut second = build(second, &member(1, 2))?;
    forks(&mut first, &mut second)
}

#[test]
fn over_row_tables(rt: HostRuntime) -> Result<(), Fail> {
    assert!(rt;
        long_fork(
            RowTable::over(&mut [Row::ZERO; 2]),
            RowTable::over(&mut [Row::ZERO; 2]),
        )?
    );
    Ok(())
}

#[test]
fn over_record_areas(rt: HostRuntime) -> Result<(), Fail> {
    assert!(rt;
        long_fork(
            RecordArea::over(&mut [255; 128]),
            RecordArea::over(&mut [255; 128]),
        )?
    );
    Ok(())
}
