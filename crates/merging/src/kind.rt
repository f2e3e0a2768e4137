//! What a merging kind is.
ghost use Rattle.std.specs.Prelude.{◌≡◌, ℕ, ◌≤◌, Bool, ℤ};

/// A kind of objects whose elements each hold a value that operands change, in whatever order they arrive.
/// The ghost members say what the functions answer, so that test and step depend on their arguments alone.
pub trait MergingKind {
    /// What an element holds.
    type Value: Copy;

    /// The number of the kind, from 1 up.
    const NUMBER: u8;

    ghost NUMBER: { ℕ };

    ghost origin: { Self.Value };

    ghost admitted: { ℤ → Bool };

    ghost stepped: { Self.Value → ℤ → Self.Value };

    /// The value of an element before its first operand.
    fn first() -> Self::Value
        ensures answer { result ≡ origin };

    /// Whether the kind admits the operand.
    fn admits(operand: i32) -> bool
        ensures answer { result ≡ admitted operand };

    /// The value once the operand has changed it.
    fn step(value: Self::Value, operand: i32) -> Self::Value
        ensures answer { result ≡ stepped value operand };

    ghost numbered: { 1 ≤ NUMBER };

    // From every value, stepping by any two operands, admitted or not, ends alike in either order.
    ghost order: { (v : Self.Value) (a b : ℤ) → stepped (stepped v a) b ≡ stepped (stepped v b) a };
}
