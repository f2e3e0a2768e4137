//! Kind 1, the count.
ghost use Rattle.std.specs.Prelude.{◌≡◌, pos, ◌+ℤ◌};
ghost use Rattle.std.proofs.Common.{sym, ap, ◌∙◌, arith, rules};
ghost use Rattle.merging.specs.Counts.{by_one, added};
ghost use Rattle.std.specs.Int.{int_wrap, w32};
ghost use Rattle.std.proofs.lemmas.Int.{int_wrap-add_left, ints};

use crate::kind::MergingKind;

/// Counts up and down by one from 0, in signed 32 bits, wrapping.
pub struct Count;

impl MergingKind for Count {
    type Value = i32;

    const NUMBER: u8 = 1;

    ghost NUMBER = { 1 };

    ghost origin = { pos 0 };

    ghost admitted = { by_one };

    ghost stepped = { added };

    ghost numbered = { Prim.search rules };

    // to wrap on the way changes nothing, and integers add in either order
    ghost order = { λ v a b.
        let either : (v +ℤ a) +ℤ b ≡ (v +ℤ b) +ℤ a = omega (arith, ints) in
        int_wrap-add_left w32 (v +ℤ a) b ∙ ap (int_wrap w32) either ∙ sym (int_wrap-add_left w32 (v +ℤ b) a) };

    fn first() -> i32 {
        0
    }

    fn admits(operand: i32) -> bool {
        operand == 1 || operand == -1
    }

    #[tactic(auto, using(std::proofs::lemmas::Int::wraps))]
    fn step(value: i32, operand: i32) -> i32 {
        value.wrapping_add(operand)
    }
}
