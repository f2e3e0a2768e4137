//! Outgoing buffers of 447 bytes are refused, and 448 suffice.
use crate::play::{OURS, begin, build, commit, member, shown};
use crate::wire::{FRESH, UNTOUCHED, has, plain, row};
use board::{Board, OpenTransaction};
use keeper::{LogKeeper, RowTable};
use record::{Fault, RecordKind, Row};
use std::test::Fail;

/// A byte less than a call asks for.
const SHORT: [u8; 447] = [UNTOUCHED; 447];

/// What is shown of a short buffer.
const TOO_SHORT: (u8, u8, u32) = (2, 2, 0);

/// Commits into a buffer that suffices.
fn commits<K: LogKeeper>(board: &mut Board<K>, of: OpenTransaction, out: &mut [u8]) -> bool {
    commit(board, of, out).ok() == Some((1, 1, 1))
}

/// Commits into a short buffer, and then what comes back.
fn commit_wants_448_bytes<K: LogKeeper>(
    board: &mut Board<K>,
    out: &mut [u8],
) -> Result<bool, Fault> {
    let of = begin(board, OURS, 7)?;
    match board.commit(of, &mut SHORT) {
        Err((of, fault)) => Ok(commits(board, of, out) && shown(fault) == TOO_SHORT),
        Ok(_) => Ok(false),
    }
}

fn resend_wants_448_bytes<K: LogKeeper>(board: &Board<K>, out: &mut [u8]) -> Result<bool, Fault> {
    let denied = board.resend(1, &mut SHORT).err();
    Ok(board.resend(1, out)? == 1 && denied.map(shown) == Some(TOO_SHORT))
}

fn deliver_wants_448_bytes<K: LogKeeper>(
    board: &mut Board<K>,
    out: &mut [u8],
) -> Result<bool, Fault> {
    let ack = plain(RecordKind::Ack, 1, 0, 0, 0, 1).to_bytes();
    let denied = board.deliver(&ack, &mut SHORT).err();
    Ok(board.deliver(&ack, out)? == 1 && denied.map(shown) == Some(TOO_SHORT))
}

/// Commits a row, sends it again, and takes the ACK for it.
fn calls_want_448_bytes<K: LogKeeper>(board: &mut Board<K>) -> Result<bool, Fault> {
    let mut sent = FRESH;
    let mut again = FRESH;
    let mut durable = FRESH;
    let commit = commit_wants_448_bytes(board, &mut sent)?;
    let resend = resend_wants_448_bytes(board, &mut again)?;
    let deliver = deliver_wants_448_bytes(board, &mut durable)?;
    let propagate = row(0, 1, 1, OURS, 7).to_record(RecordKind::Propagate, 1);
    let told = has(&durable, &[plain(RecordKind::Durable, 0, 1, 0, 0, 1)]);
    Ok(commit && resend && deliver && has(&sent, &[propagate]) && again == sent && told)
}

fn want_448_bytes<K: LogKeeper + Drop>(log: K) -> Result<bool, Fault> {
    let mut board = build(log, &member(0, 2))?;
    calls_want_448_bytes(&mut board)
}

#[test]
fn each_call_that_writes_wants_448_bytes(rt: HostRuntime) -> Result<(), Fail> {
    assert!(rt; want_448_bytes(RowTable::over(&mut [Row::ZERO; 1]))?);
    Ok(())
}
