//! What a transaction sees of an object: the rows that its start clock covers, and then its own updates.
ghost use Rattle.std.specs.Prelude.{◌≡◌};
ghost use Rattle.merging.specs.Values.{value_after};
ghost use Rattle.record.specs.Updates.{covered_updates, last_put};
ghost use Rattle.queries.specs.Walks.{updates_if, visible, word_of};

use crate::rows::rows_of;
use keeper::LogKeeper;
use merging::{ElementId, MergingKind, merged};
use record::{Clock, Row, Update};

/// The operand of the last of the updates that is of the object.
fn last_update(updates: &[Update], object: u16) -> Option<i32>
    ensures { result ≡ last_put object updates.now }
{
    updates
        .iter()
        .rev()
        .find(|update| update.object == object)
        .map(|update| update.operand)
}

/// The operand of the last update of the object in the rows that the clock covers, from the newest row down.
fn last_put<K: LogKeeper>(log: &K, clock: &Clock, object: u16) -> Option<i32>
    ensures { result ≡ last_put object (covered_updates (K.rows log.now) clock.now) }
{
    // Not by `find_map`, whose proof did not close: no lemma leads from what it yields to a recursion on the list.
    for place in (0..log.count()).rev() {
        let found = covered_put(&log.row_at(place), clock, object);
        if found.is_some() {
            return found;
        }
    }
    None
}

/// The operand of the last update of the object in a row, if the clock covers it.
fn covered_put(row: &Row, clock: &Clock, object: u16) -> Option<i32>
    ensures { result ≡ last_put object (updates_if clock.now row.now) }
{
    if clock.covers_row(row) {
        last_update(row.updates(), object)
    } else {
        None
    }
}

/// The value of an element once the rows that the clock covers have changed it.
fn look_through<M: MergingKind, K: LogKeeper>(
    first: M::Value,
    log: &K,
    clock: &Clock,
    of: ElementId,
) -> M::Value
    ensures { result ≡ value_after M.stepped of.object of.element first (covered_updates (K.rows log.now) clock.now) }
{
    rows_of(log).fold(first, |value, row| {
        step_row::<M>(value, &row, clock, of)
    })
}

fn step_row<M: MergingKind>(value: M::Value, row: &Row, clock: &Clock, of: ElementId) -> M::Value
    ensures { result ≡ value_after M.stepped of.object of.element value (updates_if clock.now row.now) }
{
    if clock.covers_row(row) {
        merged::<M>(value, row.updates(), of)
    } else {
        value
    }
}

/// The operand of the last update of the object that the transaction of a row sees: its own, or else one of the log.
fn last_seen<K: LogKeeper>(log: &K, row: &Row, object: u16) -> Option<i32>
    ensures { result ≡ last_put object (visible (K.rows log.now) row.now) }
{
    last_update(row.updates(), object).or_else(|| last_put(log, &row.start, object))
}

/// The word of a regular object as the transaction of a row sees it; none where it was never put.
pub fn word_seen<K: LogKeeper>(log: &K, row: &Row, object: u16) -> Option<u32>
    ensures { result ≡ word_of (last_put object (visible (K.rows log.now) row.now)) }
{
    last_seen(log, row, object).map(|operand| operand.cast_unsigned())
}

/// The value of an element from a first one on: by the log, and then by the transaction's own updates.
fn value_from<M: MergingKind, K: LogKeeper>(
    first: M::Value,
    log: &K,
    row: &Row,
    of: ElementId,
) -> M::Value
    ensures { result ≡ value_after M.stepped of.object of.element first (visible (K.rows log.now) row.now) }
{
    let value = look_through::<M, K>(first, log, &row.start, of);
    merged::<M>(value, row.updates(), of)
}

/// The value of an element as the transaction of a row sees it.
pub fn value_seen<M: MergingKind, K: LogKeeper>(log: &K, row: &Row, of: ElementId) -> M::Value
    ensures { result ≡ value_after M.stepped of.object of.element M.origin (visible (K.rows log.now) row.now) }
{
    value_from::<M, K>(M::first(), log, row, of)
}
