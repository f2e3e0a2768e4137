//! Sets of boards, as sums of site marks.
ghost use Rattle.std.specs.Prelude.{◌≡◌};
ghost use Rattle.config.specs.BoardSets.{mark_of, is_in, with_board};

/// The mark of each board.
const SITE_MARKS: [u8; 8] = [1, 2, 4, 8, 16, 32, 64, 128];

/// The mark of a board; 0 for a board that no group has.
fn mark(board: u8) -> u8
    ensures { result ≡ mark_of board }
{
    SITE_MARKS.get(board as usize).copied().unwrap_or(0)
}

/// Whether the board is in the set.
pub fn has(set: u8, board: u8) -> bool
    ensures { result ≡ is_in set board }
{
    set & mark(board) != 0
}

/// The set with the board in it.
pub fn with(set: u8, board: u8) -> u8
    ensures { result ≡ with_board set board }
{
    set | mark(board)
}
