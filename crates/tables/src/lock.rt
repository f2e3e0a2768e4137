//! Locks on the objects that are preferred here.
ghost use Rattle.std.specs.Prelude.{◌≡◌, cond, None};
ghost use Rattle.std.specs.List.{position};
ghost use Rattle.std.specs.Option.{is_none};
ghost use Rattle.config.specs.Objects.{polled_for};
ghost use Rattle.record.specs.Rows.{updates_of};
ghost use Rattle.tables.specs.Changes.{all_locked, all_unlocked, lockable, relocked, locked, released};
ghost use Rattle.tables.specs.Locks.{is_owned, is_unlocked, is_locked_by, free_locks, with_lock, with_locks};

use crate::tables::Tables;
use record::{Denial, Fault, Row, TransactionId, Update};

/// A lock: an object, and the transaction that owns it.
#[derive(Clone, Copy, PartialEq, Eq, Debug)]
pub struct Lock {
    pub object: u16,
    pub owner: TransactionId,
}

/// Whether a lock place holds a lock of this owner. A function, since in the loop the check does not split the place.
fn is_owned(place: &Option<Lock>, owner: TransactionId) -> bool
    ensures { result ≡ is_owned owner.home owner.serial place.now }
{
    place.is_some_and(|lock| lock.owner == owner)
}

impl Tables {
    /// Whether no place holds the object.
    fn is_unlocked(&self, object: u16) -> bool
        ensures { result ≡ is_unlocked self.now.locks object }
    {
        self.locks
            .iter()
            .all(|place| place.is_none_or(|lock| lock.object != object))
    }

    /// Whether a place holds the object for this owner.
    fn is_locked_by(&self, owner: TransactionId, object: u16) -> bool
        ensures { result ≡ is_locked_by self.now.locks owner.home owner.serial object }
    {
        self.locks.contains(&Some(Lock { object, owner }))
    }

    /// How many lock places are free.
    fn free_locks(&self) -> usize
        ensures { result ≡ free_locks self.now.locks }
    {
        self.locks.iter().filter(|place| place.is_none()).count()
    }

    /// Whether our objects that the row writes are all locked by its own transaction.
    pub fn all_locked(&self, row: &Row) -> bool
        ensures { result ≡ all_locked self.now row.now }
    {
        row.updates().iter().all(|update| {
            !self.config.is_ours(update.object) || self.is_locked_by(row.id(), update.object)
        })
    }

    /// Whether none of our objects that the row writes is locked.
    pub fn all_unlocked(&self, row: &Row) -> bool
        ensures { result ≡ all_unlocked self.now row.now }
    {
        row.updates().iter().all(|update| !self.config.is_ours(update.object)
            || self.is_unlocked(update.object))
    }

    /// Whether lock places enough are free for our objects that the row writes.
    pub fn lockable(&self, row: &Row) -> Result<(), Fault>
        ensures { result ≡ lockable self.now row.now }
    {
        if self.config.count_ours(row.updates()) <= self.free_locks() {
            Ok(())
        } else {
            Err(Fault::Board(Denial::NoLockPlaces))
        }
    }

    /// The index of the first free place.
    fn free_lock(&self) -> Option<usize>
        ensures { result ≡ position is_none self.now.locks }
    {
        self.locks.iter().position(|place| place.is_none())
    }

    /// The first free place takes the lock.
    #[tactic(auto, using(crate::proofs::Firsts::first_at_is, crate::proofs::Firsts::set_missed, crate::proofs::LockSteps::with_lock_is))]
    fn lock(&mut self, lock: Lock)
        ensures { self.new ≡ relocked self.old (with_lock self.old.locks lock.object lock.owner.home lock.owner.serial) }
    {
        if let Some(i) = self.free_lock() {
            self.locks[i] = Some(lock);
        }
    }

    // The two loops stand apart from the public calls, which then need no proof file: an edit of these is refused by their contracts.
    /// Locks our objects among those written for this owner, but for those that are locked already.
    fn lock_all(&mut self, owner: TransactionId, updates: &[Update])
        ensures { self.new ≡ relocked self.old (with_locks self.old.config self.old.locks owner.home owner.serial updates.now) }
    {
        for update in updates {
            if self.config.is_ours(update.object) && self.is_unlocked(update.object) {
                self.lock(Lock {
                    object: update.object,
                    owner,
                });
            }
        }
    }

    /// Frees the locks of this owner.
    #[tactic(auto, using(crate::proofs::LockSteps::freed_more))]
    fn free_all(&mut self, owner: TransactionId)
        ensures { self.new ≡ released self.old owner.home owner.serial }
    {
        for place in &mut self.locks {
            if is_owned(place, owner) {
                *place = None;
            }
        }
    }

    /// Locks our objects that the row writes for its transaction, but for those that are locked already.
    pub fn lock_for(&mut self, row: &Row)
        ensures { self.new ≡ locked self.old row.now }
    {
        self.lock_all(row.id(), row.updates());
    }

    /// Frees the locks of a transaction.
    pub fn release(&mut self, id: TransactionId)
        ensures { self.new ≡ released self.old id.home id.serial }
    {
        self.free_all(id);
    }

    /// The other boards that are preferred for a regular object that the row writes.
    pub fn polled_for(&self, row: &Row) -> u8
        ensures { result ≡ polled_for self.now.config (updates_of row.now) }
    {
        self.config.polled_for(row.updates())
    }
}
