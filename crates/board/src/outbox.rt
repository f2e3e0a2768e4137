//! The outgoing buffer: records laid one behind the other.
ghost use Rattle.std.specs.Prelude.{◌≡◌, ◌+◌, ◌*◌, ◌<◌, ◌≤◌, true, [], ◌∷◌, length, if◌then◌else◌};
ghost use Rattle.record.specs.Layout.{bytes_of, written};
ghost use Rattle.board.specs.Commits.{buffer_fits};
ghost use Rattle.board.specs.Effects.{outgoing};
ghost use Rattle.bus.specs.Letters.{letter_to, goes_to, letters_of, records_of};

use bus::{Letter, Sending};
use config::Config;
use record::{Denial, Fault, Record};

/// Denies a buffer that could not take a record for each of seven others.
pub(crate) fn fit(out: &[u8]) -> Result<(), Fault>
    ensures { result ≡ buffer_fits (length out.now) }
{
    if out.len() < 448 {
        Err(Fault::Board(Denial::ShortBuffer))
    } else {
        Ok(())
    }
}

/// Lays a record behind `count` others.
fn lay(out: &mut [u8], count: usize, record: &Record)
    requires { 64 * count + 64 ≤ length out.old }
    ensures { out.new ≡ written out.old (64 * count) (bytes_of «record».now) }
{
    let place = 64 * count;
    let bytes = record.to_bytes();
    out[place..place + 64].copy_from_slice(&bytes);
}

/// Writes one record, and answers that it was one.
fn reply(out: &mut [u8], record: &Record) -> usize
    requires room { 448 ≤ length out.old }
    ensures count { result ≡ 1 }
    ensures after { out.new ≡ outgoing out.old («record».now ∷ []) }
{
    lay(out, 0, record);
    1
}

/// Writes a letter to each board that it goes to, in ascending order, and answers how many records that were.
fn send(config: &Config, out: &mut [u8], letter: &Letter) -> usize
    requires room { 448 ≤ length out.old }
    requires group { (config.now.boards ≤ 8) × (config.now.own < config.now.boards) }
    ensures count { result ≡ length (letters_of config.now letter.now) }
    ensures after { out.new ≡ outgoing out.old (letters_of config.now letter.now) }
{
    // A loop that counts: with `filter` on the boards the proof of what the buffer holds after each did not close.
    let mut count = 0;
    for board in 0..config.boards {
        count = send_to(config, out, count, letter, board);
    }
    count
}

/// Writes a letter to a board behind `count` records, if it goes there, and answers how many records there are then.
fn send_to(config: &Config, out: &mut [u8], count: usize, letter: &Letter, board: u8) -> usize
    requires { (goes_to config.now letter.now board ≡ true → 64 * count + 64 ≤ length out.old) × (count < 8) }
    ensures count { result ≡ (if goes_to config.now letter.now board then count + 1 else count) }
    ensures after { out.new ≡ (if goes_to config.now letter.now board then written out.old (64 * count) (bytes_of (letter_to config.now letter.now board)) else out.old) }
{
    if letter.goes_to(config, board) {
        lay(out, count, &letter.to(config, board));
        count + 1
    } else {
        count
    }
}

/// Writes what a call has to tell others, and answers how many records that were.
pub(crate) fn post(config: &Config, out: &mut [u8], sending: &Sending) -> usize
    requires room { 448 ≤ length out.old }
    requires group { (config.now.boards ≤ 8) × (config.now.own < config.now.boards) }
    ensures count { result ≡ length (records_of config.now sending.now) }
    ensures after { out.new ≡ outgoing out.old (records_of config.now sending.now) }
{
    match sending {
        Sending::Nothing => 0,
        Sending::One(record) => reply(out, record),
        Sending::Several(letter) => send(config, out, letter),
    }
}
