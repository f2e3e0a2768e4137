//! Deliver: what a board does with a record that is brought to it.
ghost use Rattle.std.specs.Prelude.{◌≡◌, ◌≤◌, length};
ghost use Rattle.board.specs.Delivers.{acted, deliver};
ghost use Rattle.board.specs.Effects.{state_of, outgoing, leaves};

use crate::board::Board;
use crate::outbox;
use keeper::LogKeeper;
use record::{Fault, Record};

impl<K: LogKeeper> Board<K> {
    /// Acts on a record by its kind, and writes what that has to tell others.
    fn take(&mut self, record: &Record, out: &mut [u8]) -> Result<usize, Fault>
        requires { 448 ≤ length out.old }
        ensures answer { result ≡ (acted (state_of self.old) «record».now).answer }
        ensures board { state_of self.new ≡ leaves (state_of self.old) (acted (state_of self.old) «record».now) }
        ensures out { out.new ≡ outgoing out.old (acted (state_of self.old) «record».now).written }
    {
        let sending = self.act_on(record)?;
        Ok(outbox::post(&self.tables.config, out, &sending))
    }

    /// Takes a record from the bus, acts by its kind, and answers how many records were written.
    #[tactic(auto, using(crate::proofs::Refusals::nothing_out, crate::proofs::Refusals::refused_second))]
    pub fn deliver(&mut self, bytes: &[u8], out: &mut [u8]) -> Result<usize, Fault>
        ensures answer { result ≡ (deliver (state_of self.old) bytes.now (length out.old)).answer }
        ensures board { state_of self.new ≡ leaves (state_of self.old) (deliver (state_of self.old) bytes.now (length out.old)) }
        ensures out { out.new ≡ outgoing out.old (deliver (state_of self.old) bytes.now (length out.old)).written }
    {
        outbox::fit(out)?;
        let record = bus::receive(&self.tables.config, bytes)?;
        self.take(&record, out)
    }
}
