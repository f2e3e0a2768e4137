//! What a board is built with.

/// A container: the board that is preferred for its objects, and their kind, 0 for regular ones.
/// The kind is a number and no enum, since firmware may bring merging kinds of its own.
#[derive(Clone, Copy)]
pub struct Container {
    pub preferred: u8,
    pub kind: u8,
}

impl Container {
    /// What stands past the last place.
    pub(crate) const NONE: Container = Container {
        preferred: 0,
        kind: 0,
    };
}

/// What a board is built with, and never changes.
#[derive(Clone, Copy)]
pub struct Config {
    /// The board's own number.
    pub own: u8,
    /// How many boards the group has.
    pub boards: u8,
    /// How many of them may be lost.
    pub losses: u8,
    /// How many containers are listed. The memory is fixed, and a configuration is copied, which the kit's `ArrayVec` is not.
    pub listed: u8,
    pub containers: [Container; 64],
}
