//! Numbers that look random and are the same in every run.
ghost use Rattle.std.specs.Prelude.{◌+◌, ◌<◌, ◌≤◌};

/// A xorshift generator of 64 bits.
#[derive(Drop)]
pub struct Random {
    state: u64,
}

impl Random {
    pub fn seeded(seed: u64) -> Random {
        Random { state: seed }
    }

    /// The high half of the next state, which is the better one.
    pub fn next(&mut self) -> u32 {
        self.state ^= self.state << 13;
        self.state ^= self.state >> 7;
        self.state ^= self.state << 17;
        (self.state >> 32) as u32
    }

    /// A number from `least` to `most`.
    pub(crate) fn within(&mut self, least: u16, most: u16) -> u16
        requires { least ≤ most }
        ensures low { least ≤ result }
        ensures high { result ≤ most }
    {
        let choices = (most - least) as u32 + 1;
        least + (self.next() % choices) as u16
    }
}
