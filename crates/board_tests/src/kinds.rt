//! Objects of the merging kinds.
use crate::play::{COUNT, MARK, NOWHERE, OURS, OUT, build, commit, end, part, shown};
use board::{Board, OpenTransaction};
use keeper::{LogKeeper, RecordArea, RowTable};
use merging::{Count, HighestMark};
use record::{Fault, Row};
use std::test::Fail;

/// Two steps of one count, one of a neighbour, and a mark.
fn four_updates<K: LogKeeper>(board: &mut Board<K>, of: &OpenTransaction) -> Result<(), Fault> {
    board.merge::<Count>(of, COUNT, 5, 1)?;
    board.merge::<Count>(of, COUNT, 5, 1)?;
    board.merge::<Count>(of, COUNT, 6, -1)?;
    board.merge::<HighestMark>(of, MARK, 0, -3)
}

/// The two counts and the mark.
fn values<K: LogKeeper>(
    board: &Board<K>,
    of: &OpenTransaction,
) -> Result<(i32, i32, Option<i32>), Fault> {
    let count = board.look::<Count>(of, COUNT, 5)?;
    let neighbour = board.look::<Count>(of, COUNT, 6)?;
    let mark = board.look::<HighestMark>(of, MARK, 0)?;
    Ok((count, neighbour, mark))
}

/// Steps elements in one transaction, which sees them at once.
fn steps<K: LogKeeper>(board: &mut Board<K>, of: &OpenTransaction) -> Result<bool, Fault> {
    let before = values(board, of)?;
    four_updates(board, of)?;
    let after = values(board, of)?;
    let fifth = board.merge::<Count>(of, COUNT, 5, 1).err();
    Ok(before == (0, 0, None) && after == (2, -1, Some(-3)) && fifth.map(shown) == Some((2, 8, 0)))
}

fn counts_and_marks<K: LogKeeper + Drop>(log: K) -> Result<bool, Fault> {
    let mut board = build(log, &part(0, 2))?;
    let of = board.start()?;
    let seen = steps(&mut board, &of);
    let answer = commit(&mut board, of, &mut OUT)?;
    let of = board.start()?;
    let later = values(&board, &of);
    let ended = end(&mut board, of);
    Ok(seen? && answer == (1, 1, 1) && ended && later? == (2, -1, Some(-3)))
}

#[test]
fn steps_are_seen_within_and_after(rt: HostRuntime) -> Result<(), Fail> {
    assert!(rt; counts_and_marks(RecordArea::over(&mut [255; 64]))?);
    Ok(())
}

/// Whether objects of no listed container are denied with 6, whatever the kind.
fn unlisted<K: LogKeeper>(board: &mut Board<K>, of: &OpenTransaction) -> bool {
    let no = Some((2, 6, 0));
    board.merge::<Count>(of, NOWHERE, 0, 2).err().map(shown) == no
        && board.put(of, NOWHERE, 1).err().map(shown) == no
        && board.read(of, NOWHERE).err().map(shown) == no
        && board.look::<Count>(of, NOWHERE, 0).err().map(shown) == no
}

/// Whether changes of another kind are denied with 7, and operands that the kind does not admit.
fn misfits<K: LogKeeper>(board: &mut Board<K>, of: &OpenTransaction) -> bool {
    let no = Some((2, 7, 0));
    board.merge::<Count>(of, MARK, 0, 1).err().map(shown) == no
        && board.merge::<HighestMark>(of, COUNT, 0, 1).err().map(shown) == no
        && board.merge::<Count>(of, OURS, 0, 1).err().map(shown) == no
        && board.merge::<Count>(of, COUNT, 0, 2).err().map(shown) == no
        && board.put(of, COUNT, 1).err().map(shown) == no
}

/// Whether values of another kind are denied with 7.
fn mislooks<K: LogKeeper>(board: &Board<K>, of: &OpenTransaction) -> bool {
    let no = Some((2, 7, 0));
    board.read(of, MARK).err().map(shown) == no
        && board.look::<Count>(of, MARK, 0).err().map(shown) == no
        && board.look::<HighestMark>(of, OURS, 0).err().map(shown) == no
}

fn denies<K: LogKeeper + Drop>(log: K) -> Result<bool, Fault> {
    let mut board = build(log, &part(0, 2))?;
    let of = board.start()?;
    let denied = unlisted(&mut board, &of) && misfits(&mut board, &of) && mislooks(&board, &of);
    // Nothing stands of what was denied: the commit has no updates.
    let answer = commit(&mut board, of, &mut OUT)?;
    Ok(denied && answer == (1, 0, 0))
}

#[test]
fn another_kind_is_denied(rt: HostRuntime) -> Result<(), Fail> {
    assert!(rt; denies(RowTable::over(&mut [Row::ZERO; 1]))?);
    Ok(())
}
