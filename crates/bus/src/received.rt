//! What only the group can judge of a record that is brought to one of its boards.
ghost use Rattle.std.specs.Prelude.{◌≡◌, ◌+◌, ◌*◌, ◌<◌, drop};
ghost use Rattle.record.specs.Codec.{unless};
ghost use Rattle.record.specs.Rows.{updates_of};
ghost use Rattle.record.specs.Rules.{first};
ghost use Rattle.bus.specs.Received.{stranger_rules, update_rules, part_rules, carried_updates, group_rules, is_addressed, received};

use config::Config;
use record::{Clock, Denial, Fault, Record, RecordKind, Row, Update};

/// Denies a clock entry that is not 0, of a board that the group does not have.
fn check_clock(config: &Config, clock: &Clock) -> Result<(), Fault>
    ensures { result ≡ unless (first (stranger_rules (12 + 2 * config.now.boards) (drop config.now.boards clock.now.entries))) tt }
{
    let place = 12 + 2 * config.boards as u32;
    let counted = clock
        .entries
        .iter()
        .skip(config.boards as usize)
        .position(|entry| *entry > 0);
    counted.map_or(Ok(()), |i| Err(Fault::Record(place + 2 * i as u32)))
}

/// Denies an update of a container that is not listed, or of an element of a regular object.
fn check_update(config: &Config, place: u32, update: &Update) -> Result<(), Fault>
    requires { place < 64 }
    ensures { result ≡ unless (first (part_rules config.now place update.now)) tt }
{
    if !config.is_listed(update.object) {
        return Err(Fault::Record(place));
    }
    if config.is_regular(update.object) && update.element != 0 {
        return Err(Fault::Record(place + 2));
    }
    Ok(())
}

#[tactic(auto, using(record::proofs::Offences::check_append))]
fn check_updates(config: &Config, row: &Row) -> Result<(), Fault>
    ensures { result ≡ unless (first (update_rules config.now 28 (updates_of row.now))) tt }
{
    for (i, update) in row.updates().iter().enumerate() {
        check_update(config, 28 + 8 * i as u32, update)?;
    }
    Ok(())
}

/// The same of a record, which carries updates only as PREPARE or PROPAGATE.
fn check_carried(config: &Config, record: &Record) -> Result<(), Fault>
    ensures { result ≡ unless (first (update_rules config.now 28 (carried_updates «record».now))) tt }
{
    match record.kind {
        RecordKind::Prepare | RecordKind::Propagate => check_updates(config, &Row::from(*record)),
        _ => Ok(()),
    }
}

/// Denies a record that is not one of the group, with the place of the first field that is not.
#[tactic(auto, using(record::proofs::Offences::check_append))]
fn check_group(config: &Config, record: &Record) -> Result<(), Fault>
    ensures { result ≡ unless (first (group_rules config.now «record».now)) tt }
{
    // A ROW is for a log, and never for the bus.
    if record.kind == RecordKind::Row {
        return Err(Fault::Record(0));
    }
    if record.sender >= config.boards {
        return Err(Fault::Record(1));
    }
    if record.receiver >= config.boards {
        return Err(Fault::Record(2));
    }
    check_clock(config, &record.start)?;
    check_carried(config, record)
}

/// The record, if it is for this board.
fn addressed(config: &Config, record: Record) -> Result<Record, Fault>
    ensures { result ≡ is_addressed config.now «record» }
{
    if record.receiver == config.own {
        Ok(record)
    } else {
        Err(Fault::Board(Denial::NotHere))
    }
}

/// The record in some bytes, if it is one of the group, and for this board.
#[tactic(auto, using(record::proofs::Offences::check_then))]
pub fn receive(config: &Config, bytes: &[u8]) -> Result<Record, Fault>
    ensures { result ≡ received config.now bytes.now }
{
    let record = Record::decode(bytes)?;
    check_group(config, &record)?;
    addressed(config, record)
}
