//! Numbers that look random, always the same ones for a seed.
ghost use Rattle.std.specs.Prelude.{◌<◌};

/// Numbers of a linear congruential generator (Knuth's constants, the upper half of each state).
#[derive(Clone, Copy)]
pub struct Draw {
    state: u64,
}

impl Draw {
    /// Makes the numbers of a seed.
    pub fn new(seed: u32) -> Draw {
        let mut draw = Draw {
            state: u64::from(seed).wrapping_mul(0x9E37_79B9_7F4A_7C15),
        };
        let _first = draw.next();
        draw
    }

    /// Returns the next number.
    #[inline(always)]
    pub fn next(&mut self) -> u32 {
        self.state = self
            .state
            .wrapping_mul(6_364_136_223_846_793_005)
            .wrapping_add(1_442_695_040_888_963_407);
        let [a, b, c, d, ..] = self.state.to_be_bytes();
        u32::from_be_bytes([a, b, c, d])
    }

    /// Returns a number below a bound.
    #[inline(always)]
    pub fn below(&mut self, bound: u32) -> u32
        requires { 0 < bound }
        ensures { result < bound }
    {
        self.next() % bound
    }
}
