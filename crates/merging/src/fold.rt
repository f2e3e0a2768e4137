//! The value of one element after a list of updates.
ghost use Rattle.std.specs.Prelude.{◌≡◌, List};
ghost use Rattle.std.specs.List.Sorted.{IsPermutation};
ghost use Rattle.merging.specs.Values.{concerns, updated, value_after};

use crate::kind::MergingKind;
use record::Update;

/// One element of an object of a merging kind.
#[derive(Clone, Copy, PartialEq, Eq, Debug)]
pub struct ElementId {
    pub object: u16,
    pub element: u16,
}

impl ElementId {
    /// Whether the update is of this element.
    fn is_updated_by(self, update: &Update) -> bool
        ensures { result ≡ concerns self.object self.element update.now }
    {
        update.object == self.object && update.element == self.element
    }
}

/// The value stepped by the update, if that is of this element.
fn step_by<M: MergingKind>(value: M::Value, update: &Update, of: ElementId) -> M::Value
    ensures answer { result ≡ updated M.stepped of.object of.element value update.now }
{
    if of.is_updated_by(update) {
        M::step(value, update.operand)
    } else {
        value
    }
}

// Apart from `merged`, which then needs no proof file: an edit of it is refused by its contract.
/// The value stepped by each update in turn.
fn step_through<M: MergingKind>(value: M::Value, updates: &[Update], of: ElementId) -> M::Value
    ensures answer { result ≡ value_after M.stepped of.object of.element value updates.now }
{
    updates
        .iter()
        .fold(value, |value, update| step_by::<M>(value, update, of))
}

/// The value of this element once the updates have changed it, from `value` on. The updates in any other order give the same.
#[tactic(auto, using(crate::proofs::Values::value_reordered))]
pub fn merged<M: MergingKind>(value: M::Value, updates: &[Update], of: ElementId) -> M::Value
    ensures answer { result ≡ value_after M.stepped of.object of.element value updates.now }
    ensures reordered { (others : List Update) → IsPermutation updates.now others → value_after M.stepped of.object of.element value others ≡ result }
{
    step_through::<M>(value, updates, of)
}
