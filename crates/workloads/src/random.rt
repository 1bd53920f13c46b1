//! Numbers at random, the same for the same seed (SplitMix64, by Steele, Lea and Flood).

/// Where a row of random numbers stands.
#[derive(Clone, Copy)]
pub(crate) struct Random {
    state: u64,
}

impl Random {
    /// The row of a seed, from its front.
    pub(crate) fn new(seed: u64) -> Random {
        Random { state: seed }
    }

    /// A number of 64 bits.
    pub(crate) fn next(&mut self) -> u64 {
        self.state = self.state.wrapping_add(0x9e37_79b9_7f4a_7c15);
        let low = (self.state ^ (self.state >> 30)).wrapping_mul(0xbf58_476d_1ce4_e5b9);
        let high = (low ^ (low >> 27)).wrapping_mul(0x94d0_49bb_1331_11eb);
        high ^ (high >> 31)
    }

    /// A number below a bound; 0 where the bound is 0.
    pub(crate) fn below(&mut self, bound: u32) -> u32 {
        match self.next().checked_rem(u64::from(bound)) {
            Some(rest) => u32::try_from(rest).unwrap_or(0),
            None => 0,
        }
    }

    /// A number from a least one on, one of so many.
    pub(crate) fn from(&mut self, least: u32, many: u32) -> u32 {
        least.saturating_add(self.below(many))
    }

    /// A number at most so far from 0, on both sides.
    pub(crate) fn within(&mut self, reach: u32) -> i64 {
        let span = reach.saturating_mul(2).saturating_add(1);
        i64::from(self.below(span)).wrapping_sub(i64::from(reach))
    }
}
