//! Objects, their containers, and what the updates of a transaction touch.
ghost use Rattle.std.specs.Prelude.{◌≡◌, not, ◌&&◌, ◌||◌, ◌==◌, slice_index_or};
ghost use Rattle.config.specs.Objects.{container_of, no_container, is_listed, kind_of, preferred_of, is_regular, is_ours, writes, writes_regular, every_ours, count_ours, polled_for, polled_with, clashes};

use crate::board_set;
use crate::config::{Config, Container};
use record::{Row, Update};

/// The container of an object is its number's high byte.
fn container(object: u16) -> usize
    ensures { result ≡ container_of object }
{
    (object / 256) as usize
}

/// Whether some update is of the object.
fn writes(updates: &[Update], object: u16) -> bool
    ensures { result ≡ writes updates.now object }
{
    updates.iter().any(|update| update.object == object)
}

impl Config {
    /// Whether the object's container is listed.
    pub fn is_listed(&self, object: u16) -> bool
        ensures { result ≡ is_listed self.now object }
    {
        container(object) < self.listed as usize
    }

    /// The container of an object; one of board 0 and of kind 0 past the 64.
    fn container_of(&self, object: u16) -> Container
        ensures { result ≡ slice_index_or self.now.containers (container_of object) no_container }
    {
        self.containers
            .get(container(object))
            .copied()
            .unwrap_or(Container::NONE)
    }

    /// The kind of an object, as its container has it.
    fn kind_of(&self, object: u16) -> u8
        ensures { result ≡ kind_of self.now object }
    {
        self.container_of(object).kind
    }

    /// Whether the object is of this kind.
    pub fn has_kind(&self, object: u16, kind: u8) -> bool
        ensures { result ≡ (kind_of self.now object == kind) }
    {
        self.kind_of(object) == kind
    }

    /// The board that is preferred for an object, as its container has it.
    pub(crate) fn preferred_of(&self, object: u16) -> u8
        ensures { result ≡ preferred_of self.now object }
    {
        self.container_of(object).preferred
    }

    /// Whether the object is regular: its kind is 0.
    pub fn is_regular(&self, object: u16) -> bool
        ensures { result ≡ is_regular self.now object }
    {
        self.kind_of(object) == 0
    }

    /// Whether the object is regular, and preferred here.
    pub fn is_ours(&self, object: u16) -> bool
        ensures { result ≡ is_ours self.now object }
    {
        self.is_regular(object) && self.preferred_of(object) == self.own
    }

    /// Whether a regular object is written.
    pub(crate) fn writes_regular(&self, updates: &[Update]) -> bool
        ensures { result ≡ writes_regular self.now updates.now }
    {
        updates.iter().any(|update| self.is_regular(update.object))
    }

    // A chain of its own, as the tests of locks are: over a closure the contract of a shared one is longer than each of them.
    /// Whether none of our objects among those written is among those that the others write.
    pub fn all_apart(&self, others: &[Update], updates: &[Update]) -> bool
        ensures { result ≡ every_ours self.now (λ object. not (writes others.now object)) updates.now }
    {
        updates.iter().all(|update| !self.is_ours(update.object) || !writes(others, update.object))
    }

    /// Whether the object is ours, and not written later.
    fn counts(&self, object: u16, later: &[Update]) -> bool
        ensures { result ≡ (is_ours self.now object && not (writes later.now object)) }
    {
        self.is_ours(object) && !writes(later, object)
    }

    /// How many of our objects are written, each counted once: where it is written last.
    pub fn count_ours(&self, updates: &[Update]) -> usize
        ensures { result ≡ count_ours self.now updates.now }
    {
        updates
            .iter()
            .enumerate()
            .filter(|(i, update)| self.counts(update.object, &updates[i + 1..]))
            .count()
    }

    /// The set, with the board that is preferred for the object, if it is a regular one of another board.
    fn polling(&self, set: u8, object: u16) -> u8
        ensures { result ≡ polled_with self.now set object }
    {
        let preferred = self.preferred_of(object);
        if self.is_regular(object) && preferred != self.own {
            board_set::with(set, preferred)
        } else {
            set
        }
    }

    /// The other boards that are preferred for a written regular object.
    pub fn polled_for(&self, updates: &[Update]) -> u8
        ensures { result ≡ polled_for self.now updates.now }
    {
        updates
            .iter()
            .fold(0, |set, update| self.polling(set, update.object))
    }

    /// Whether the other row is not covered by this one's start clock, and writes one of our objects that this one writes.
    pub fn clashes(&self, row: &Row, other: &Row) -> bool
        ensures { result ≡ clashes self.now row.now other.now }
    {
        !row.start.covers_row(other) && !self.all_apart(other.updates(), row.updates())
    }
}
