//! Numbers that look random, the same in each run.
ghost use Rattle.std.specs.Prelude.{◌<◌};

/// The numbers of a linear congruential generator.
#[derive(Drop)]
pub struct Random {
    seed: u64,
}

impl Random {
    pub fn new() -> Random {
        Random { seed: 1 }
    }

    /// The next number, of which the top bits look most random.
    pub fn next(&mut self) -> u64 {
        self.seed = self
            .seed
            .wrapping_mul(6_364_136_223_846_793_005)
            .wrapping_add(1_442_695_040_888_963_407);
        self.seed
    }

    /// A number below a bound, from the top bits of the next one where the bound has few.
    pub fn below(&mut self, bound: u64) -> u64
        requires { 0 < bound }
    {
        let next = self.next();
        ((next >> 32) ^ next.wrapping_mul(0x1_0000_0000)) % bound
    }

    /// A place below `len`.
    pub fn place(&mut self, len: usize) -> usize
        requires { 0 < len }
        ensures { result < len }
    {
        (self.next() >> 32) as usize % len
    }
}
