//! Slow commits: what another board prefers is changed only if that board agrees.
use crate::play::{THEIRS, begin, build, change, end, member};
use crate::wire::{Buffer, FRESH, has, plain, row};
use board::{Board, OpenTransaction, WaitingTransaction};
use keeper::{LogKeeper, RowTable};
use record::{Fault, Record, RecordKind, Row};
use std::test::Fail;

/// Commits a transaction that has to ask so many boards.
fn asks<K: LogKeeper>(
    board: &mut Board<K>,
    of: OpenTransaction,
    count: usize,
    out: &mut [u8],
) -> Option<WaitingTransaction> {
    match board.commit(of, out) {
        Ok((answer, waiting)) => waiting.filter(|_| answer == (2, 0, count)),
        Err((of, _)) => {
            end(board, of);
            None
        }
    }
}

/// Settles a transaction too early: it comes back.
fn still_waits<K: LogKeeper>(
    board: &mut Board<K>,
    of: WaitingTransaction,
) -> Option<WaitingTransaction> {
    let (answer, waiting) = board.settle(of).ok()?;
    waiting.filter(|_| answer == (2, 0))
}

/// How a transaction has ended.
fn settled<K: LogKeeper>(board: &mut Board<K>, of: WaitingTransaction) -> Option<(u8, u16)> {
    let (answer, waiting) = board.settle(of).ok()?;
    if waiting.is_none() {
        Some(answer)
    } else {
        None
    }
}

/// Asks board 1, and settles in vain.
fn waits_for_one<K: LogKeeper>(
    home: &mut Board<K>,
    prepare: &mut Buffer,
) -> Result<Option<WaitingTransaction>, Fault> {
    let of = begin(home, THEIRS, 7)?;
    let Some(of) = asks(home, of, 1, prepare) else {
        return Ok(None);
    };
    let asked = row(0, 1, 0, THEIRS, 7).to_record(RecordKind::Prepare, 1);
    if !has(prepare, &[asked]) {
        return Ok(None);
    }
    Ok(still_waits(home, of))
}

fn vote(sender: u8, detail: u8) -> Record {
    plain(RecordKind::Vote, sender, 0, detail, 1, 0)
}

/// Brings a PREPARE to the board that is asked, and this VOTE to the home, which answers how many records it writes then.
fn votes<K: LogKeeper>(
    home: &mut Board<K>,
    asked: &mut Board<K>,
    prepare: &[u8],
    vote: Record,
    out: &mut [u8],
) -> Result<Option<usize>, Fault> {
    let mut answer = FRESH;
    asked.deliver(prepare, &mut answer)?;
    if !has(&answer, &[vote]) {
        return Ok(None);
    }
    Ok(Some(home.deliver(&answer[0..64], out)?))
}

/// Board 1 agrees, so that the home commits and tells both others.
fn agrees<K: LogKeeper>(home: &mut Board<K>, asked: &mut Board<K>) -> Result<bool, Fault> {
    let mut prepare = FRESH;
    let mut propagate = FRESH;
    let Some(of) = waits_for_one(home, &mut prepare)? else {
        return Ok(false);
    };
    let count = votes(home, asked, &prepare[0..64], vote(1, 1), &mut propagate)?;
    let own = row(0, 1, 1, THEIRS, 7);
    let told = [
        own.to_record(RecordKind::Propagate, 1),
        own.to_record(RecordKind::Propagate, 2),
    ];
    Ok(count == Some(2) && has(&propagate, &told) && settled(home, of) == Some((1, 1)))
}

// Each play builds its boards itself: a bound for a play that takes `&mut Board<K>` was tried, and cannot be stated yet.
fn agreed<K: LogKeeper + Drop>(home: K, asked: K) -> Result<bool, Fault> {
    let mut home = build(home, &member(0, 3))?;
    let mut asked = build(asked, &member(1, 3))?;
    agrees(&mut home, &mut asked)
}

#[test]
fn a_yes_commits(rt: HostRuntime) -> Result<(), Fail> {
    assert!(rt;
        agreed(
            RowTable::over(&mut [Row::ZERO; 1]),
            RowTable::over(&mut [Row::ZERO; 1]),
        )?
    );
    Ok(())
}

/// Board 1 has changed its object before it is asked, so that it does not agree, and the home aborts.
fn disagrees<K: LogKeeper>(home: &mut Board<K>, asked: &mut Board<K>) -> Result<bool, Fault> {
    let mut prepare = FRESH;
    let mut out = FRESH;
    change(asked, THEIRS, 9, &mut out)?;
    let Some(of) = waits_for_one(home, &mut prepare)? else {
        return Ok(false);
    };
    let count = votes(home, asked, &prepare[0..64], vote(1, 0), &mut out)?;
    Ok(count == Some(0) && settled(home, of) == Some((3, 0)))
}

fn disagreed<K: LogKeeper + Drop>(home: K, asked: K) -> Result<bool, Fault> {
    let mut home = build(home, &member(0, 3))?;
    let mut asked = build(asked, &member(1, 3))?;
    disagrees(&mut home, &mut asked)
}

#[test]
fn a_no_aborts(rt: HostRuntime) -> Result<(), Fail> {
    assert!(rt;
        disagreed(
            RowTable::over(&mut [Row::ZERO; 1]),
            RowTable::over(&mut [Row::ZERO; 1]),
        )?
    );
    Ok(())
}
