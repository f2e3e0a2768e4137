//! Gives a table and an area of equal capacities the same rows, and prints what they answered and where they differ.
#![tactic(auto)]

mod compare;
mod difference;
mod random;
mod samples;
mod tally;

use compare::drive;
use random::Random;
use std::io;
use tally::Tally;

const CAPACITIES: [usize; 8] = [1, 2, 3, 5, 8, 16, 33, 64];

/// Fresh keepers for each capacity.
const ROUNDS: u32 = 16;

fn main(rt: HostRuntime) -> io::Result<()> {
    let mut random = Random::seeded(0x2545_f491_4f6c_dd1d);
    let mut total = Tally::default();
    for capacity in CAPACITIES {
        let mut tally = Tally::default();
        for _ in 0..ROUNDS {
            drive(&rt, &mut random, capacity, &mut tally)?;
        }
        println!(rt; "capacity {capacity}: {tally}")?;
        total += tally;
    }
    println!(rt; "total: {total}")
}
