//! Lengths of varints, counted four at once with no branch on their lengths.
ghost use Rattle.std.specs.Prelude.{◌≡◌, ◌≤◌, ◌<◌, ◌+◌, ◌^◌, [], ◌∷◌, length};
ghost use Rattle.twkb_num.specs.Varint.{four_lens, more_bytes, lanes_cap};

use crate::varint::{FIVE_BYTES, FOUR_BYTES, THREE_BYTES, TWO_BYTES, varint_len};
use std::marker::Model;
use std::simd::{u32x4, u64x2};

/// Adds up the lengths of varints, in bytes. Lengths of short varints are counted in lanes, which
/// are added up at the end. A contract sees the sum.
#[derive(Drop)]
pub struct VarintLens {
    lanes: u32x4,
    others: u64,
}

impl Model for VarintLens {
    ghost use Rattle.std.specs.Prelude.{◌≡◌, ◌+◌, ℕ, length};
    ghost use lib.Lanes.{sum_l};

    ghost Value = { ℕ };

    ghost view = { λ s. sum_l s.lanes + s.others };

    ghost invariant = { λ s. length s.lanes ≡ 4 };
}

// How many bytes, 0 to 3, the shortest varint of each of four numbers has after its first. Each
// number must be below 2^28.
#[inline(always)]
fn more_lens(first: u32, second: u32, third: u32, fourth: u32) -> u32x4
    requires first_small { first < 2 ^ 28 }
    requires second_small { second < 2 ^ 28 }
    requires third_small { third < 2 ^ 28 }
    requires fourth_small { fourth < 2 ^ 28 }
    ensures { result ≡ more_bytes first ∷ more_bytes second ∷ more_bytes third ∷ more_bytes fourth ∷ [] }
{
    let numbers = u32x4::from_array([first, second, third, fourth]);
    let none = u32x4::splat(0);
    let one = u32x4::splat(1);
    numbers
        .simd_ge(u32x4::splat(TWO_BYTES as u32))
        .select(one, none)
        + numbers
            .simd_ge(u32x4::splat(THREE_BYTES as u32))
            .select(one, none)
        + numbers
            .simd_ge(u32x4::splat(FOUR_BYTES as u32))
            .select(one, none)
}

impl VarintLens {
    /// Makes a sum that starts at `bytes`. Takes no memory.
    #[inline(always)]
    pub fn from(bytes: u64) -> VarintLens
        ensures { result ≡ bytes }
    {
        VarintLens {
            lanes: u32x4::splat(0),
            others: bytes,
        }
    }

    // Adds the lengths of the shortest varints of four numbers, each below 2^28. The sum before
    // must be at most 2^31.
    #[inline(always)]
    fn add_short(&mut self, first: u32, second: u32, third: u32, fourth: u32)
        requires first_small { first < 2 ^ 28 }
        requires second_small { second < 2 ^ 28 }
        requires third_small { third < 2 ^ 28 }
        requires fourth_small { fourth < 2 ^ 28 }
        requires room { self.old ≤ lanes_cap }
        ensures value { self.new ≡ self.old + four_lens first second third fourth }
        ensures most { self.new ≤ self.old + 16 }
    {
        self.lanes += more_lens(first, second, third, fourth);
        self.others += 4;
    }

    /// Adds the lengths of the shortest varints of four numbers (TWKB specification; LEB128). The
    /// sum before must be at most 2^31. Takes no memory.
    #[inline(always)]
    #[tactic(auto, using(std::proofs::lemmas::Nat::le_or_l, std::proofs::lemmas::Nat::le_or_r))]
    pub fn add_four(&mut self, first: u64, second: u64, third: u64, fourth: u64)
        requires room { self.old ≤ lanes_cap }
        ensures value { self.new ≡ self.old + four_lens first second third fourth }
        ensures most { self.new ≤ self.old + 40 }
    {
        let either = u64x2::from_array([first, second]) | u64x2::from_array([third, fourth]);
        let [low, high] = either.to_array();
        if low | high < FIVE_BYTES {
            self.add_short(first as u32, second as u32, third as u32, fourth as u32);
            return;
        }
        let lens = varint_len(first)
            + varint_len(second)
            + (varint_len(third) + varint_len(fourth));
        self.others += u64::from(lens);
    }

    /// The sum, in bytes: the number that it started at, and all lengths added. It must be at most
    /// 2^31. Takes no memory.
    #[inline(always)]
    pub fn total(&self) -> u64
        requires { self.now ≤ lanes_cap }
        ensures { result ≡ self.now }
    {
        u64::from(self.lanes.reduce_sum()) + self.others
    }
}
