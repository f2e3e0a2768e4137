//! Resend: what others may still lack of a waiting transaction or of an own row.
ghost use Rattle.std.specs.Prelude.{◌≡◌, length};
ghost use Rattle.board.specs.Effects.{state_of, outgoing};
ghost use Rattle.board.specs.Resends.{resend};

use crate::board::Board;
use crate::outbox;
use keeper::LogKeeper;
use record::Fault;

impl<K: LogKeeper> Board<K> {
    /// Writes again what others may lack of the transaction with this serial, and answers how many records that are. Nothing else changes.
    pub fn resend(&self, serial: u32, out: &mut [u8]) -> Result<usize, Fault>
        ensures answer { result ≡ (resend (state_of self.now) serial (length out.old)).answer }
        ensures out { out.new ≡ outgoing out.old (resend (state_of self.now) serial (length out.old)).written }
    {
        let sending = self.due_for(serial)?;
        outbox::fit(out)?;
        Ok(outbox::post(&self.tables.config, out, &sending))
    }
}
