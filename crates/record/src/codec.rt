//! Records put into their 64 bytes and taken out again.
ghost use Rattle.std.specs.Prelude.{◌≡◌, ◌≤◌, length, IfOk, Ok};
ghost use Rattle.record.specs.Layout.{bytes_of, written};
ghost use Rattle.record.specs.Codec.{Kept, decoded, checked, encoded};

use crate::bytes::{put, u16_at, u32_at};
use crate::clock::Clock;
use crate::fault::Fault;
use crate::kind::KindRules;
use crate::layout::{lay_updates, read_updates};
use crate::message::Record;

impl Record {
    /// The record in these bytes, or the place at which they first break a rule.
    pub fn decode(bytes: &[u8]) -> Result<Record, Fault>
        ensures answer { result ≡ decoded bytes.now }
        ensures rebuilt { IfOk result (λ m. encoded m ≡ Ok bytes.now) }
    {
        if bytes.len() != 64 {
            return Err(Fault::Record(64));
        }
        Record::take_apart(bytes)
    }

    /// The record in 64 bytes.
    fn take_apart(bytes: &[u8]) -> Result<Record, Fault>
        requires { length bytes.now ≡ 64 }
        ensures answer { result ≡ decoded bytes.now }
        ensures rebuilt { IfOk result (λ m. encoded m ≡ Ok bytes.now) }
    {
        let [kind, sender, receiver, detail, rest @ ..] = bytes else {
            unreachable!()
        };
        let rules = KindRules::of(*kind).ok_or(Fault::Record(0))?;
        let record = Record {
            kind: rules.kind,
            sender: *sender,
            receiver: *receiver,
            detail: *detail,
            serial: u32_at(rest, 0),
            number: u16_at(rest, 4),
            start: Clock::read(rest, 8),
            updates: read_updates(rest, 24),
        };
        rules.check(&record, u16_at(rest, 6), u32_at(rest, 56))?;
        Ok(record)
    }

    /// Denies a record that breaks a rule, with the place at which its bytes would.
    pub fn check(&self) -> Result<(), Fault>
        ensures { result ≡ checked self.now }
    {
        self.kind.rules().check(self, 0, 0)
    }

    /// Lays the record into the first 64 bytes of `out`.
    fn lay(&self, out: &mut [u8])
        requires { 64 ≤ length out.old }
        ensures after { out.new ≡ written out.old 0 (bytes_of self.now) }
        ensures kept { Kept self.now }
    {
        put(
            out,
            0,
            &[self.kind as u8, self.sender, self.receiver, self.detail],
        );
        put(out, 4, &self.serial.to_le_bytes());
        put(out, 8, &self.number.to_le_bytes());
        put(out, 10, &[0, 0]);
        self.start.lay(out, 12);
        lay_updates(&self.updates, out, 28);
        put(out, 60, &[0, 0, 0, 0]);
    }

    /// The bytes of the record, whether or not it breaks a rule.
    pub fn to_bytes(&self) -> [u8; 64]
        ensures bytes { result ≡ bytes_of self.now }
        ensures kept { Kept self.now }
    {
        let mut bytes = [0; 64];
        self.lay(&mut bytes);
        bytes
    }

    /// The bytes of a record that breaks no rule.
    fn sound_bytes(&self) -> [u8; 64]
        requires { checked self.now ≡ Ok tt }
        ensures answer { Ok result ≡ encoded self.now }
        ensures back { decoded result ≡ Ok self.now }
    {
        self.to_bytes()
    }

    /// The bytes of the record, or the place at which they would break a rule.
    pub fn encode(&self) -> Result<[u8; 64], Fault>
        ensures answer { result ≡ encoded self.now }
        ensures back { IfOk result (λ bs. decoded bs ≡ Ok self.now) }
    {
        self.check()?;
        Ok(self.sound_bytes())
    }
}
