//! For tests: numbers from a fixed generator, the same in each run.

use rand_pcg::Pcg32;
use rand_pcg::rand_core::Rng;

/// A fixed generator of numbers.
#[derive(Drop)]
pub struct Draw {
    generator: Pcg32,
}

impl Draw {
    pub fn new(seed: u64) -> Draw {
        Draw {
            generator: Pcg32::new(seed, 0),
        }
    }

    /// A number below the bound, or 0 where the bound is 0.
    pub fn below(&mut self, bound: u64) -> u64 {
        self.generator.next_u64().checked_rem(bound).unwrap_or(0)
    }
}
