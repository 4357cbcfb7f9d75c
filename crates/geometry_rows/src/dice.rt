//! Numbers from a seed.
ghost use Rattle.std.specs.Prelude.{◌<◌, ◌≤ℤ◌, ◌<ℤ◌, pos};

/// A linear congruential generator.
#[derive(Drop)]
pub struct Dice {
    state: u32,
}

impl Dice {
    /// The numbers of this seed.
    pub fn new(seed: u32) -> Self {
        Dice { state: seed }
    }

    /// The next number, below `faces`.
    pub fn roll(&mut self, faces: u32) -> u32
        requires { 0 < faces }
        ensures { result < faces }
    {
        self.state = self
            .state
            .wrapping_mul(1_664_525)
            .wrapping_add(1_013_904_223);
        (self.state >> 16) % faces
    }

    /// The next number from 0 up to 63.
    pub fn place(&mut self) -> i32
        ensures least { pos 0 ≤ℤ result }
        ensures below { result <ℤ pos 64 }
    {
        self.roll(64) as i32
    }
}
