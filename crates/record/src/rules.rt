//! Which field of a record breaks a rule first.
ghost use Rattle.std.specs.Prelude.{◌≡◌, ◌<◌, [], ◌∷◌};
ghost use Rattle.record.specs.Rules.{first, receives, head_rules, clock_rules, zero_rules, update_rules, offence};
ghost use Rattle.record.specs.Codec.{unless};

use crate::clock::Clock;
use crate::fault::Fault;
use crate::kind::{KindRules, RecordKind};
use crate::message::{NOBODY, Record};
use crate::row::Update;

fn may_receive(kind: RecordKind, sender: u8, receiver: u8) -> bool
    ensures { result ≡ receives kind sender receiver }
{
    match kind {
        RecordKind::Row => receiver == NOBODY,
        _ => receiver < 8 && receiver != sender,
    }
}

/// Denies a place if what stands there is not in order. One at a time: a list of places to look through would be laid out whole for each
/// record, and a walk of a log checks one for each of its rows.
fn in_order(place: u32, is: bool) -> Result<(), Fault>
    ensures { result ≡ unless (first ((place, is) ∷ [])) tt }
{
    if is {
        Ok(())
    } else {
        Err(Fault::Record(place))
    }
}

impl Clock {
    /// Denies an entry above `top`.
    fn check(&self, top: u16) -> Result<(), Fault>
        ensures { result ≡ unless (first (clock_rules top 12 self.now.entries)) tt }
    {
        let above = self.entries.iter().position(|entry| *entry > top);
        above.map_or(Ok(()), |board| Err(Fault::Record(12 + 2 * board as u32)))
    }
}

impl Update {
    /// Denies an update that is not used if a part of it is not zero.
    fn check(&self, place: u32) -> Result<(), Fault>
        requires { place < 64 }
        ensures { result ≡ unless (first (zero_rules place self.now)) tt }
    {
        in_order(place, self.object == 0)?;
        in_order(place + 2, self.element == 0)?;
        in_order(place + 4, self.operand == 0)
    }
}

#[tactic(auto, using(crate::proofs::Offences::update_used_at, crate::proofs::Offences::update_unused_at))]
fn check_updates(used: u8, updates: &[Update; 4]) -> Result<(), Fault>
    ensures { result ≡ unless (first (update_rules used 28 updates.now)) tt }
{
    for (i, update) in updates.iter().enumerate() {
        if i >= used as usize {
            update.check(28 + 8 * i as u32)?;
        }
    }
    Ok(())
}

impl KindRules {
    fn check_head(&self, record: &Record, gap: u16) -> Result<(), Fault>
        ensures { result ≡ unless (first (head_rules self.now «record».now gap)) tt }
    {
        in_order(1, record.sender < 8)?;
        in_order(2, may_receive(self.kind, record.sender, record.receiver))?;
        in_order(3, self.detail.admit(record.detail as u32))?;
        in_order(4, self.serial.admit(record.serial))?;
        in_order(8, self.number.admit(record.number as u32))?;
        in_order(10, gap == 0)
    }

    /// Denies a record that breaks a rule, with the place of the first field that does.
    /// `gap` is what stands in bytes 10 and 11, and `tail` in the last four.
    #[tactic(auto, using(crate::proofs::Offences::offence_is))]
    pub(crate) fn check(&self, record: &Record, gap: u16, tail: u32) -> Result<(), Fault>
        ensures { result ≡ unless (offence self.now «record».now gap tail) tt }
    {
        let top = if self.carries { 4096 } else { 0 };
        let used = if self.carries { record.detail } else { 0 };
        self.check_head(record, gap)?;
        record.start.check(top)?;
        check_updates(used, &record.updates)?;
        in_order(60, tail == 0)
    }
}
