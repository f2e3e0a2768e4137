//! The calls on an open transaction, and settle.
ghost use Rattle.std.specs.Prelude.{◌≡◌};
ghost use Rattle.board.specs.Effects.{state_of, leaves};
ghost use Rattle.board.specs.Tokens.{token_from, abandon_answer, settle_answer};
ghost use Rattle.board.specs.Transactions.{start, put, merge, read, look, abandon, settle};

use crate::board::Board;
use crate::open::OpenTransaction;
use crate::waiting::{SettleAnswer, WaitingTransaction};
use keeper::LogKeeper;
use merging::{ElementId, MergingKind};
use record::{Fault, Update};
use tables::Outcome;

impl<K: LogKeeper> Board<K> {
    /// Starts a transaction that sees what the board has committed.
    pub fn start(&mut self) -> Result<OpenTransaction, Fault>
        ensures answer { result ≡ token_from self.old.tables.config.own (start (state_of self.old)).answer }
        ensures board { state_of self.new ≡ leaves (state_of self.old) (start (state_of self.old)) }
    {
        let serial = self.tables.start()?;
        let id = self.tables.own_id(serial);
        Ok(OpenTransaction { id })
    }

    /// Gives a regular object another word.
    pub fn put(&mut self, of: &OpenTransaction, object: u16, word: u32) -> Result<(), Fault>
        ensures answer { result ≡ (put (state_of self.old) of.now.id.home of.now.id.serial object word).answer }
        ensures board { state_of self.new ≡ leaves (state_of self.old) (put (state_of self.old) of.now.id.home of.now.id.serial object word) }
    {
        self.tables.put(of.id, object, word)
    }

    /// Steps an element of an object of a merging kind.
    #[tactic(auto, using(crate::proofs::Kept::updated_config))]
    pub fn merge<M: MergingKind>(
        &mut self,
        of: &OpenTransaction,
        object: u16,
        element: u16,
        operand: i32,
    ) -> Result<(), Fault>
        ensures answer { result ≡ (merge (state_of self.old) M.NUMBER (M.admitted operand) of.now.id.home of.now.id.serial object element operand).answer }
        ensures board { state_of self.new ≡ leaves (state_of self.old) (merge (state_of self.old) M.NUMBER (M.admitted operand) of.now.id.home of.now.id.serial object element operand) }
    {
        let update = Update {
            object,
            element,
            operand,
        };
        self.tables
            .merge(of.id, M::NUMBER, M::admits(operand), update)
    }

    /// The word of a regular object as the transaction sees it; nil where none was ever put.
    pub fn read(&self, of: &OpenTransaction, object: u16) -> Result<Option<u32>, Fault>
        ensures { result ≡ (read (state_of self.now) of.now.id.home of.now.id.serial object).answer }
    {
        let row = self.tables.readable(of.id, object, 0)?;
        Ok(queries::word_seen(&self.log, &row, object))
    }

    /// The value of an element of an object of a merging kind, as the transaction sees it.
    pub fn look<M: MergingKind>(
        &self,
        of: &OpenTransaction,
        object: u16,
        element: u16,
    ) -> Result<M::Value, Fault>
        ensures { result ≡ (look M.NUMBER M.origin M.stepped (state_of self.now) of.now.id.home of.now.id.serial object element).answer }
    {
        let row = self.tables.readable(of.id, object, M::NUMBER)?;
        let of_element = ElementId { object, element };
        Ok(queries::value_seen::<M, K>(&self.log, &row, of_element))
    }

    /// Ends an open transaction, as if it had never been.
    pub fn abandon(&mut self, of: OpenTransaction) -> Result<(), (OpenTransaction, Fault)>
        ensures answer { result ≡ abandon_answer of (abandon (state_of self.old) of.id.home of.id.serial).answer }
        ensures board { state_of self.new ≡ leaves (state_of self.old) (abandon (state_of self.old) of.id.home of.id.serial) }
    {
        match self.tables.abandon(of.id) {
            Ok(()) => {
                let OpenTransaction { id: _ } = of;
                Ok(())
            }
            Err(fault) => Err((of, fault)),
        }
    }

    /// What became of a transaction that waited.
    pub fn settle(&mut self, of: WaitingTransaction) -> SettleAnswer
        ensures answer { result ≡ settle_answer of (settle (state_of self.old) of.id.home of.id.serial).answer }
        ensures board { state_of self.new ≡ leaves (state_of self.old) (settle (state_of self.old) of.id.home of.id.serial) }
    {
        match self.tables.settle(of.id) {
            Ok(Outcome::Waiting) => Ok(((Outcome::Waiting.code(), 0), Some(of))),
            Ok(outcome) => Ok(((outcome.code(), outcome.number()), None)),
            Err(fault) => Err((of, fault)),
        }
    }
}
