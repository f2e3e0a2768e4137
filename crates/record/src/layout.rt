//! Where the clock and the updates of a record lie in its bytes.
ghost use Rattle.std.specs.Prelude.{◌≡◌, ℕ, ◌+◌, ◌<◌, ◌≤◌, length, slice_index, slice_index_or};
ghost use Rattle.record.specs.Rows.{no_update};
ghost use Rattle.record.specs.Layout.{clock_at, update_at, updates_at, clock_bytes, update_bytes, updates_bytes, written};
ghost use Rattle.record.specs.Codec.{Sized};

use crate::bytes::{i32_at, put, u16_at};
use crate::clock::Clock;
use crate::row::Update;
use std::array;

impl Clock {
    /// The clock whose entries stand in `bytes` from `at` on.
    pub(crate) fn read(bytes: &[u8], at: usize) -> Clock
        requires { at + 16 ≤ length bytes.now }
        ensures { result ≡ clock_at bytes.now at }
    {
        Clock {
            entries: array::from_fn(|j| u16_at(bytes, at + 2 * j)),
        }
    }

    /// Lays the entries into `out` from `place` on.
    pub(crate) fn lay(&self, out: &mut [u8], place: usize)
        requires { place + 16 ≤ length out.old }
        ensures after { out.new ≡ written out.old place (clock_bytes self.now) }
        ensures eight { length self.now.entries ≡ 8 }
        ensures small { (k : ℕ) → k < 8 → slice_index self.now.entries k < 65536 }
    {
        for (j, entry) in self.entries.iter().enumerate() {
            put(out, place + 2 * j, &entry.to_le_bytes());
        }
    }
}

impl Update {
    pub(crate) fn read(bytes: &[u8], at: usize) -> Update
        requires { at + 8 ≤ length bytes.now }
        ensures { result ≡ update_at bytes.now at }
    {
        Update {
            object: u16_at(bytes, at),
            element: u16_at(bytes, at + 2),
            operand: i32_at(bytes, at + 4),
        }
    }

    pub(crate) fn lay(&self, out: &mut [u8], place: usize)
        requires { place + 8 ≤ length out.old }
        ensures after { out.new ≡ written out.old place (update_bytes self.now) }
        ensures sized { Sized self.now }
    {
        put(out, place, &self.object.to_le_bytes());
        put(out, place + 2, &self.element.to_le_bytes());
        put(out, place + 4, &self.operand.to_le_bytes());
    }
}

pub(crate) fn read_updates(bytes: &[u8], at: usize) -> [Update; 4]
    requires { at + 32 ≤ length bytes.now }
    ensures { result ≡ updates_at bytes.now at }
{
    array::from_fn(|i| Update::read(bytes, at + 8 * i))
}

pub(crate) fn lay_updates(updates: &[Update; 4], out: &mut [u8], place: usize)
    requires { place + 32 ≤ length out.old }
    ensures after { out.new ≡ written out.old place (updates_bytes updates.now) }
    ensures four { length updates.now ≡ 4 }
    ensures sized { (k : ℕ) → k < 4 → Sized (slice_index_or updates.now k no_update) }
{
    for (i, update) in updates.iter().enumerate() {
        update.lay(out, place + 8 * i);
    }
}
