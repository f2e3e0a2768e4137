//! What a board may be built with.
ghost use Rattle.std.specs.Prelude.{◌≡◌};
ghost use Rattle.config.specs.Builds.{is_group, are_in_group, is_listing, build_check};

use crate::config::{Config, Container};
use record::{Denial, Fault};

/// Whether the preferred board of each container is one of this many.
fn are_in_group(boards: u8, containers: &[Container]) -> bool
    ensures { result ≡ are_in_group boards containers.now }
{
    containers
        .iter()
        .all(|container| container.preferred < boards)
}

impl Config {
    /// Whether there are two to eight boards, this one among them, of which at least one may be lost, and never all.
    fn is_group(&self) -> bool
        ensures { result ≡ is_group self.now }
    {
        (2..=8).contains(&self.boards)
            && 1 <= self.losses
            && self.losses < self.boards
            && self.own < self.boards
    }

    /// Whether 1 to 64 containers are listed, each with a preferred board of the group.
    fn is_listing(&self) -> bool
        ensures { result ≡ is_listing self.now }
    {
        let listed = self.listed as usize;
        (1..=64).contains(&listed) && are_in_group(self.boards, &self.containers[..listed])
    }

    /// Whether a board can be built from this, with this serial for its first transaction.
    pub fn check(&self, first_serial: u32) -> Result<(), Fault>
        ensures { result ≡ build_check self.now first_serial }
    {
        if self.is_group() && self.is_listing() && first_serial != 0 {
            Ok(())
        } else {
            Err(Fault::Board(Denial::Build))
        }
    }
}
