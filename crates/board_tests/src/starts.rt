//! Transactions that start and end on their home, and that other boards do not know.
use crate::play::{OURS, OUT, THEIRS, begin, build, commit, end, part, shown};
use board::{Board, OpenTransaction};
use keeper::{LogKeeper, RowTable};
use record::{Fault, Row};
use std::test::Fail;

fn can_start<K: LogKeeper>(board: &mut Board<K>) -> bool {
    match board.start() {
        Ok(of) => end(board, of),
        Err(_) => false,
    }
}

/// Starts so many transactions, each while those before it are open, and one more that is denied. When one is abandoned, another can start.
fn fills<K: LogKeeper>(board: &mut Board<K>, places: u8) -> bool {
    match board.start() {
        Err(fault) => places == 0 && shown(fault) == (2, 9, 0),
        Ok(of) => {
            let rest = places > 0 && fills(board, places - 1);
            end(board, of) && can_start(board) && rest
        }
    }
}

fn fills_up<K: LogKeeper + Drop>(log: K) -> Result<bool, Fault> {
    let mut board = build(log, &part(0, 2))?;
    Ok(fills(&mut board, 8))
}

#[test]
fn the_ninth_start_is_denied(rt: HostRuntime) -> Result<(), Fail> {
    assert!(rt; fills_up(RowTable::over(&mut [Row::ZERO; 1]))?);
    Ok(())
}

fn spends_the_last_serial<K: LogKeeper + Drop>(log: K) -> Result<bool, Fault> {
    let config = part(0, 2);
    Board::check(&log, &config, u32::MAX)?;
    let mut board = Board::make(log, &config, u32::MAX);
    if !can_start(&mut board) {
        return Ok(false);
    }
    match board.start() {
        Err(fault) => Ok(shown(fault) == (2, 10, 0)),
        Ok(of) => {
            end(&mut board, of);
            Ok(false)
        }
    }
}

#[test]
fn the_last_serial_is_given_out_once(rt: HostRuntime) -> Result<(), Fail> {
    assert!(rt; spends_the_last_serial(RowTable::over(&mut [Row::ZERO; 1]))?);
    Ok(())
}

/// Commits a transaction where it must be denied.
fn denied_commit<K: LogKeeper>(
    board: &mut Board<K>,
    of: OpenTransaction,
) -> Option<(OpenTransaction, Fault)> {
    board.commit(of, &mut OUT).err()
}

/// Tries a transaction on a board that is not its home. It comes back, and with it whether each call was denied with 4.
fn goes_abroad<K: LogKeeper>(
    board: &mut Board<K>,
    of: OpenTransaction,
) -> Option<(OpenTransaction, bool)> {
    let put = board.put(&of, THEIRS, 7).err();
    let read = board.read(&of, THEIRS).err();
    let (of, commit) = denied_commit(board, of)?;
    match board.abandon(of) {
        Ok(()) => None,
        Err((of, abandon)) => {
            let unknown = (2, 4, 0);
            let early = put.map(shown) == Some(unknown) && read.map(shown) == Some(unknown);
            Some((
                of,
                early && shown(commit) == unknown && shown(abandon) == unknown,
            ))
        }
    }
}

/// The other board has an open transaction with the same serial, which must not be taken for this one.
fn denied_abroad<K: LogKeeper + Drop>(home: K, abroad: K) -> Result<bool, Fault> {
    let mut home = build(home, &part(0, 2))?;
    let mut abroad = build(abroad, &part(1, 2))?;
    let of = home.start()?;
    let like_it = abroad.start();
    let tried = goes_abroad(&mut abroad, of);
    let ended_abroad = match like_it {
        Ok(of) => end(&mut abroad, of),
        Err(_) => false,
    };
    let Some((of, unknown)) = tried else {
        return Ok(false);
    };
    Ok(end(&mut home, of) && ended_abroad && unknown)
}

#[test]
fn another_board_does_not_know_it(rt: HostRuntime) -> Result<(), Fail> {
    assert!(rt;
        denied_abroad(
            RowTable::over(&mut [Row::ZERO; 1]),
            RowTable::over(&mut [Row::ZERO; 1]),
        )?
    );
    Ok(())
}

/// Two transactions put one object, and the first to commit wins.
fn one_wins<K: LogKeeper + Drop>(log: K) -> Result<bool, Fault> {
    let mut board = build(log, &part(0, 2))?;
    let first = begin(&mut board, OURS, 1)?;
    let second = begin(&mut board, OURS, 2);
    let won = commit(&mut board, first, &mut OUT);
    let lost = commit(&mut board, second?, &mut OUT)?;
    Ok(won? == (1, 1, 1) && lost == (3, 0, 0))
}

#[test]
fn of_two_writers_one_is_aborted(rt: HostRuntime) -> Result<(), Fail> {
    assert!(rt; one_wins(RowTable::over(&mut [Row::ZERO; 2]))?);
    Ok(())
}
