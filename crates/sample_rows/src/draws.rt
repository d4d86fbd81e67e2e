//! Numbers that look random, the same ones from each start.
ghost use Rattle.std.specs.Prelude.{◌≡◌, ◌≤◌};
ghost use Rattle.sample_rows.specs.Generator.{after_steps, draw as drawn, high_drawn, low_drawn, next, weight_drawn};

/// A generator of numbers: a linear congruence of 64 bits, of which the upper 32 are given.
#[derive(Clone, Copy)]
pub(crate) struct Draws {
    pub(crate) x: u64,
}

impl Draws {
    /// The next number.
    pub(crate) fn draw(&mut self) -> u32
        ensures value { result ≡ drawn self.old.x 0 }
        ensures step { self.new.x ≡ next self.old.x }
    {
        self.x = self
            .x
            .wrapping_mul(6364136223846793005)
            .wrapping_add(1442695040888963407);
        (self.x >> 32) as u32
    }

    /// The ends of an interval of less than this width.
    pub(crate) fn interval(&mut self, width: u32) -> (u32, u32)
        requires some { 1 ≤ width }
        requires small { width ≤ 100000 }
        ensures low { result.0 ≡ low_drawn self.old.x 0 }
        ensures high { result.1 ≡ high_drawn width self.old.x 0 }
        ensures steps { self.new.x ≡ after_steps self.old.x 2 }
    {
        let low = self.draw() % 1000000;
        let high = low + self.draw() % width;
        (low, high)
    }

    /// A weight from -1000 to 1000.
    pub(crate) fn weight(&mut self) -> i64
        ensures value { result ≡ weight_drawn self.old.x 0 }
        ensures step { self.new.x ≡ next self.old.x }
    {
        i64::from(self.draw() % 2001) - 1000
    }
}
