//! Numbers of cases, and numbers that look random.
ghost use Rattle.std.specs.Prelude.{◌<◌};

/// A number that can't be read is 0.
pub fn number(text: &str) -> u32 {
    text.parse::<u32>().unwrap_or(0)
}

/// A fixed sequence of numbers that look random.
#[derive(Clone, Copy)]
pub struct Numbers {
    pub last: u64,
}

impl Numbers {
    /// The next number, below this one.
    pub fn below(&mut self, limit: u32) -> u32
        requires { 0 < limit }
        ensures { result < limit }
    {
        self.last = self
            .last
            .wrapping_mul(6364136223846793005)
            .wrapping_add(1442695040888963407);
        ((self.last >> 33) % (limit as u64)) as u32
    }

    /// Whether the next number is among so many of a hundred.
    pub fn percent(&mut self, percent: u32) -> bool {
        self.below(100) < percent
    }
}
