//! What every play needs: boards of one group, and transactions that come to an end on every path.
//! A play answers whether all went as it should, or the fault of a call that should have been taken.
use board::{Board, OpenTransaction};
use config::{Config, Container};
use keeper::LogKeeper;
use record::Fault;
use std::mem::ManuallyDrop;

/// A regular object of board 0, and one of board 1.
pub(crate) const OURS: u16 = 5;

pub(crate) const THEIRS: u16 = 256;

/// An object of a container of counts, and one of a container of highest marks.
pub(crate) const COUNT: u16 = 512;

pub(crate) const MARK: u16 = 768;

/// An object of the first container that is not listed.
pub(crate) const NOWHERE: u16 = 1024;

/// What a board is built with in a group that may lose one board: container 0 is preferred on board 0, and container 1 on board 1.
pub(crate) fn member(own: u8, boards: u8) -> Config {
    let mut containers = [Container {
        preferred: 0,
        kind: 0,
    }; 64];
    containers[1].preferred = 1;
    Config {
        own,
        boards,
        losses: 1,
        listed: 2,
        containers,
    }
}

/// The same with a container of counts and one of highest marks.
pub(crate) fn part(own: u8, boards: u8) -> Config {
    let mut config = member(own, boards);
    config.listed = 4;
    config.containers[2].kind = 1;
    config.containers[3].kind = 2;
    config
}

/// A fresh board, whose first transaction has serial 1.
pub(crate) fn build<K: LogKeeper + Drop>(log: K, config: &Config) -> Result<Board<K>, Fault> {
    Board::check(&log, config, 1)?;
    Ok(Board::make(log, config, 1))
}

/// What a panel shows of a fault: its layer, its number and its place.
pub(crate) fn shown(fault: Fault) -> (u8, u8, u32) {
    (fault.layer(), fault.number(), fault.place())
}

/// Abandons a transaction. Were that denied, the play fails, and the transaction is left behind: no safe code can let it go.
pub(crate) fn end<K: LogKeeper>(board: &mut Board<K>, of: OpenTransaction) -> bool {
    match board.abandon(of) {
        Ok(()) => true,
        Err((of, _)) => {
            let _left = unsafe { ManuallyDrop::new_unchecked(of) };
            false
        }
    }
}

/// Starts a transaction that puts one word.
pub(crate) fn begin<K: LogKeeper>(
    board: &mut Board<K>,
    object: u16,
    word: u32,
) -> Result<OpenTransaction, Fault> {
    let of = board.start()?;
    match board.put(&of, object, word) {
        Ok(()) => Ok(of),
        Err(fault) => {
            end(board, of);
            Err(fault)
        }
    }
}

/// Commits a transaction. One that is denied is abandoned, and one that waits is let go.
pub(crate) fn commit<K: LogKeeper>(
    board: &mut Board<K>,
    of: OpenTransaction,
    out: &mut [u8],
) -> Result<(u8, u16, usize), Fault> {
    match board.commit(of, out) {
        Ok((answer, _)) => Ok(answer),
        Err((of, fault)) => {
            end(board, of);
            Err(fault)
        }
    }
}

/// Puts one word in a transaction of its own, and commits it.
pub(crate) fn change<K: LogKeeper>(
    board: &mut Board<K>,
    object: u16,
    word: u32,
    out: &mut [u8],
) -> Result<(u8, u16, usize), Fault> {
    let of = begin(board, object, word)?;
    commit(board, of, out)
}

/// What a fresh transaction reads of an object.
pub(crate) fn value<K: LogKeeper>(board: &mut Board<K>, object: u16) -> Result<Option<u32>, Fault> {
    let of = board.start()?;
    let value = board.read(&of, object);
    end(board, of);
    value
}

/// An outgoing buffer.
pub(crate) const OUT: [u8; 448] = [0; 448];
