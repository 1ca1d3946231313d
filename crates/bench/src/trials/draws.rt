//! What a trial draws: numbers that one seed gives, so that a trial can be made again.

ghost use Rattle.std.specs.Prelude.{◌<◌};

use rand_core::Rng;
use rand_pcg::Pcg32;

/// Numbers that look like chance.
#[derive(Drop)]
pub struct Draws {
    generator: Pcg32,
}

impl Draws {
    /// The numbers of a seed.
    pub fn new(seed: u64) -> Draws {
        Draws {
            generator: Pcg32::new(seed, 54),
        }
    }

    /// A number below another one, or 0.
    pub fn below(&mut self, end: u64) -> u64 {
        self.generator.next_u64() % end.max(1)
    }

    /// A number from one to another one, or the first.
    pub fn between(&mut self, first: u64, last: u64) -> u64 {
        let more = last.saturating_sub(first);
        first.saturating_add(self.below(more.saturating_add(1)))
    }

    /// Whether something comes that comes so many times of a hundred.
    pub fn comes(&mut self, times: u64) -> bool {
        self.below(100) < times
    }

    /// A byte.
    pub fn byte(&mut self) -> u8 {
        (self.generator.next_u32() % 256) as u8
    }
}
