//! The draws of a seed.
ghost use Rattle.std.specs.Prelude.{◌≡◌, ◌<◌};
ghost use Rattle.i2c_gen.specs.Draws.{behind, drawn};

/// The multiplier of Knuth's MMIX.
const MULTIPLIER: u64 = 6364136223846793005;

/// The increment of Knuth's MMIX.
const INCREMENT: u64 = 1442695040888963407;

/// The number behind the draws so far.
#[derive(Clone, Copy)]
pub struct Draws {
    pub x: u64,
}

impl Draws {
    /// The next draw, as one of so many.
    pub fn draw(&mut self, many: u64) -> u64
        requires { 0 < many }
        ensures behind { self.new.x ≡ behind self.old.x }
        ensures value { result ≡ drawn (behind self.old.x) many }
        ensures below { result < many }
    {
        self.x = self.x.wrapping_mul(MULTIPLIER).wrapping_add(INCREMENT);
        (self.x >> 33) % many
    }
}
