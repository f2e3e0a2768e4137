//! How a panel's firmware holds a transaction: every path ends it or hands it on. The edits in `refused/` are of this crate.
#![tactic(auto)]

use board::{Board, OpenTransaction, WaitingTransaction};
use keeper::LogKeeper;
use record::Fault;

/// Changes one word, and answers as commit does. What is denied is given up.
pub(crate) fn change<K: LogKeeper>(
    board: &mut Board<K>,
    object: u16,
    word: u32,
    out: &mut [u8],
) -> Result<((u8, u16, usize), Option<WaitingTransaction>), (Option<OpenTransaction>, Fault)> {
    let of = board.start().map_err(|fault| (None, fault))?;
    if let Err(fault) = board.put(&of, object, word) {
        return Err(give_up(board, of, fault));
    }
    match board.commit(of, out) {
        Ok(answer) => Ok(answer),
        Err((of, fault)) => Err(give_up(board, of, fault)),
    }
}

/// Abandons a transaction for this reason. On a board that is not its home that is denied, and the caller has it again.
fn give_up<K: LogKeeper>(
    board: &mut Board<K>,
    of: OpenTransaction,
    why: Fault,
) -> (Option<OpenTransaction>, Fault) {
    match board.abandon(of) {
        Ok(()) => (None, why),
        Err((of, fault)) => (Some(of), fault),
    }
}

/// Looks what became of a change that waits: an outcome and a number, and the transaction if it still waits.
pub(crate) fn look_after<K: LogKeeper>(
    board: &mut Board<K>,
    of: WaitingTransaction,
) -> Result<(u8, u16, Option<WaitingTransaction>), Fault> {
    match board.settle(of) {
        Ok(((outcome, number), waiting)) => Ok((outcome, number, waiting)),
        Err((_, fault)) => Err(fault),
    }
}
