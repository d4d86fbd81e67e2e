//! Numbers that look random, the same in each run.

/// A sequence of numbers, each made of the one before.
#[derive(Drop)]
pub struct Draws {
    state: u64,
}

impl Draws {
    /// The sequence that begins at this number.
    pub fn new(start: u64) -> Draws {
        Draws { state: start }
    }

    /// The next number.
    pub fn draw(&mut self) -> u32 {
        self.state = self
            .state
            .wrapping_mul(6364136223846793005)
            .wrapping_add(1442695040888963407);
        (self.state >> 32) as u32
    }
}
