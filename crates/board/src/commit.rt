//! Commit: a transaction is committed, aborted, or waits for votes.
ghost use Rattle.std.specs.Prelude.{◌≡◌, length};
ghost use Rattle.board.specs.Commits.{commit, plain_in};
ghost use Rattle.board.specs.Effects.{state_of, outgoing, leaves};
ghost use Rattle.board.specs.Tokens.{commit_answer};

use crate::board::Board;
use crate::open::{CommitAnswer, OpenTransaction};
use crate::outbox;
use crate::waiting::WaitingTransaction;
use keeper::LogKeeper;
use record::{Fault, TransactionId};
use tables::Outcome;

impl<K: LogKeeper> Board<K> {
    /// Commits the transaction with this name, and answers what became of it and how many records were written.
    fn commit_by_id(&mut self, id: TransactionId, out: &mut [u8]) -> Result<(Outcome, usize), Fault>
        ensures answer { plain_in result ≡ (commit (state_of self.old) id.home id.serial (length out.old)).answer }
        ensures board { state_of self.new ≡ leaves (state_of self.old) (commit (state_of self.old) id.home id.serial (length out.old)) }
        ensures out { out.new ≡ outgoing out.old (commit (state_of self.old) id.home id.serial (length out.old)).written }
    {
        let row = self.tables.open_row(id)?;
        outbox::fit(out)?;
        let (outcome, sending) = self.try_to_commit(&row)?;
        let count = outbox::post(&self.tables.config, out, &sending);
        Ok((outcome, count))
    }

    /// Commits an open transaction, or asks the boards that must agree.
    pub fn commit(&mut self, of: OpenTransaction, out: &mut [u8]) -> CommitAnswer
        ensures answer { result ≡ commit_answer of (commit (state_of self.old) of.id.home of.id.serial (length out.old)).answer }
        ensures board { state_of self.new ≡ leaves (state_of self.old) (commit (state_of self.old) of.id.home of.id.serial (length out.old)) }
        ensures out { out.new ≡ outgoing out.old (commit (state_of self.old) of.id.home of.id.serial (length out.old)).written }
    {
        match self.commit_by_id(of.id, out) {
            Ok((outcome, count)) => {
                let OpenTransaction { id } = of;
                let waiting = match outcome {
                    Outcome::Waiting => Some(WaitingTransaction { id }),
                    Outcome::Committed(_) | Outcome::Aborted => None,
                };
                Ok(((outcome.code(), outcome.number(), count), waiting))
            }
            Err(fault) => Err((of, fault)),
        }
    }
}
