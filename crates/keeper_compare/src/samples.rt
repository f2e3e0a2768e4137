//! Rows to append: sound ones, and ones that are damaged in one place.
use crate::random::Random;
use record::{Clock, Denial, Fault, Row, Update};

/// A row, and the verdict on its record.
#[derive(Clone, Copy)]
pub struct Sample {
    pub row: Row,
    pub verdict: Result<(), Fault>,
}

impl Sample {
    /// Six of sixteen samples are damaged.
    pub fn random(random: &mut Random) -> Sample {
        let mut row = sound(random);
        let verdict = match random.within(0, 15) {
            0 => Err(damage_home(random, &mut row)),
            1 => Err(damage_count(random, &mut row)),
            2 => Err(damage_serial(&mut row)),
            3 => Err(damage_number(random, &mut row)),
            4 => Err(damage_clock(random, &mut row)),
            5 => Err(damage_unused(random, &mut row)),
            _ => Ok(()),
        };
        Sample { row, verdict }
    }

    /// What a log is to answer that has room for one more row, or has none.
    pub fn answer(&self, room: bool) -> Result<(), Fault> {
        self.verdict?;
        if room {
            Ok(())
        } else {
            Err(Fault::Keeper(Denial::LogFull))
        }
    }
}

fn update(random: &mut Random) -> Update {
    Update {
        object: random.within(0, u16::MAX),
        element: random.within(0, u16::MAX),
        operand: random.next().cast_signed(),
    }
}

/// A row that breaks no rule.
fn sound(random: &mut Random) -> Row {
    let mut entries = [0; 8];
    for entry in entries.iter_mut() {
        *entry = random.within(0, 4096);
    }
    let count = random.within(1, 4) as u8;
    let mut updates = [Update::NONE; 4];
    for used in &mut updates[..count as usize] {
        *used = update(random);
    }
    Row {
        home: random.within(0, 7) as u8,
        serial: random.next().max(1),
        number: random.within(1, 4096),
        start: Clock { entries },
        count,
        updates,
    }
}

fn damage_home(random: &mut Random, row: &mut Row) -> Fault {
    row.home = random.within(8, 255) as u8;
    Fault::Record(1)
}

fn damage_count(random: &mut Random, row: &mut Row) -> Fault {
    row.count = if random.within(0, 1) == 0 {
        0
    } else {
        random.within(5, 255) as u8
    };
    Fault::Record(3)
}

fn damage_serial(row: &mut Row) -> Fault {
    row.serial = 0;
    Fault::Record(4)
}

fn damage_number(random: &mut Random, row: &mut Row) -> Fault {
    row.number = if random.within(0, 1) == 0 {
        0
    } else {
        random.within(4097, u16::MAX)
    };
    Fault::Record(8)
}

fn damage_clock(random: &mut Random, row: &mut Row) -> Fault {
    let board = random.within(0, 7);
    row.start.entries[board as usize] = random.within(4097, u16::MAX);
    Fault::Record(12 + 2 * board as u32)
}

/// The last update is not used, and a part of it is not zero.
fn damage_unused(random: &mut Random, row: &mut Row) -> Fault {
    row.count = row.count.min(3);
    row.updates[3] = Update::NONE;
    let place = match random.within(0, 2) {
        0 => {
            row.updates[3].object = random.within(1, u16::MAX);
            52
        }
        1 => {
            row.updates[3].element = random.within(1, u16::MAX);
            54
        }
        _ => {
            row.updates[3].operand = random.next().max(1).cast_signed();
            56
        }
    };
    Fault::Record(place)
}
