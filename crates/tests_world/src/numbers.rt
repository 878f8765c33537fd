// Drawn whole numbers, the same in every run: the upper half of a linear congruence modulo 2 ^ 64.
#[derive(Clone, Copy)]
pub(crate) struct Numbers {
    state: u64,
}

impl Numbers {
    pub(crate) fn from(seed: u64) -> Numbers {
        Numbers {
            state: seed.wrapping_mul(0x9e37_79b9_7f4a_7c15).wrapping_add(1),
        }
    }

    // A number below the bound, and 0 if the bound is 0.
    pub(crate) fn below(&mut self, bound: u64) -> u64 {
        self.state = self
            .state
            .wrapping_mul(6_364_136_223_846_793_005)
            .wrapping_add(1_442_695_040_888_963_407);
        let drawn = self.state >> 32;
        if bound == 0 { 0 } else { drawn % bound }
    }

    // True for one in `many` draws, on average.
    pub(crate) fn one_in(&mut self, many: u64) -> bool {
        self.below(many) == 0
    }
}
