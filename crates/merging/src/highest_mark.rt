//! Kind 2, the highest mark.
ghost use Rattle.std.specs.Prelude.{true, None};
ghost use Rattle.merging.specs.Marks.{higher};
ghost use Rattle.std.proofs.Common.{rules};

use crate::kind::MergingKind;

/// Keeps the largest operand so far; before the first there is no mark.
pub struct HighestMark;

impl MergingKind for HighestMark {
    type Value = Option<i32>;

    const NUMBER: u8 = 2;

    ghost NUMBER = { 2 };

    ghost origin = { None };

    ghost admitted = { λ _. true };

    ghost stepped = { higher };

    ghost numbered = { Prim.search rules };

    ghost order = { Prim.search rules };

    fn first() -> Option<i32> {
        None
    }

    fn admits(_operand: i32) -> bool {
        true
    }

    fn step(value: Option<i32>, operand: i32) -> Option<i32> {
        let mark = value.unwrap_or(operand);
        Some(mark.max(operand))
    }
}
