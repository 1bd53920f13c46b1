//! Four numbers spelled at once, with no branch on their lengths: tracks mix numbers of one, two
//! and three units, so such a branch can't be predicted. It is the masked decoding of `four` the
//! other way round: numbers are split into units in lanes, and a shuffle from a table closes the
//! gaps.
ghost use Rattle.std.specs.Prelude.{◌≡◌, ◌≤◌, ◌<◌, ◌+◌, ◌++◌, ◌*◌, ◌^◌};
ghost use Rattle.twkb_num.specs.Alphabet.{five_unit, leb_unit, unit_over, IsRadix};
ghost use Rattle.twkb_num.specs.Block.{lane_units, AreSpelled};

use crate::alphabet::{Alphabet, POLYLINES, VARINTS};
use crate::shuffles::shuffle;
use std::simd::{u8x16, u32x4, u64x2};

// The units of four numbers. The first `low` of the first eight bytes spell two numbers, and the
// first `high` of the last eight the other two.
#[derive(Drop)]
pub(crate) struct FourUnits {
    pub(crate) units: u8x16,
    pub(crate) low: u32,
    pub(crate) high: u32,
}

// Times a number below 0x100, this is that number in each of four bytes.
const EACH_BYTE: u32 = 0x0101_0101;

// The number eight in each of eight bytes.
const EIGHTS: u64 = 0x0808_0808_0808_0808;

// Spells four numbers, each below 2^28, as their shortest varints, of one to four bytes each.
#[inline(always)]
pub(crate) fn as_varints(first: u32, second: u32, third: u32, fourth: u32) -> FourUnits
    requires first_small { first < 2 ^ 28 }
    requires second_small { second < 2 ^ 28 }
    requires third_small { third < 2 ^ 28 }
    requires fourth_small { fourth < 2 ^ 28 }
    ensures { AreSpelled leb_unit 128 first second third fourth result.units result.low result.high }
{
    spelled(first, second, third, fourth, VARINTS)
}

// Spells four numbers, each below 2^20, by the fewest characters of a polyline, one to four each.
#[inline(always)]
pub(crate) fn as_characters(first: u32, second: u32, third: u32, fourth: u32) -> FourUnits
    requires first_small { first < 2 ^ 20 }
    requires second_small { second < 2 ^ 20 }
    requires third_small { third < 2 ^ 20 }
    requires fourth_small { fourth < 2 ^ 20 }
    ensures { AreSpelled five_unit 32 first second third fourth result.units result.low result.high }
{
    spelled(first, second, third, fourth, POLYLINES)
}

// Spells four numbers by the fewest units of an alphabet, one to four each. Each number must be
// below the fourth power of the radix, which must be 32 or 128, and each unit must fit a byte.
#[inline(always)]
fn spelled(first: u32, second: u32, third: u32, fourth: u32, alphabet: Alphabet) -> FourUnits
    requires known { IsRadix alphabet.radix }
    requires in_bytes { alphabet.base + 2 * alphabet.radix ≤ 256 }
    requires first_small { first < alphabet.radix ^ 4 }
    requires second_small { second < alphabet.radix ^ 4 }
    requires third_small { third < alphabet.radix ^ 4 }
    requires fourth_small { fourth < alphabet.radix ^ 4 }
    ensures { AreSpelled (unit_over alphabet.base alphabet.radix) alphabet.radix first second third
        fourth result.units result.low result.high }
{
    let units = lanes(first, second, third, fourth, alphabet);
    let marks = units
        .simd_ge(u8x16::splat(alphabet.base + alphabet.radix))
        .to_bitmask();
    let low = marks % 256;
    let high = marks / 256;
    let places = u64x2::from_array([shuffle(low), shuffle(high)]) + u64x2::from_array([0, EIGHTS]);
    FourUnits {
        units: units.swizzle_dyn(places.to_le_bytes()),
        low: low.count_ones() + 2,
        high: high.count_ones() + 2,
    }
}

// Splits four numbers, as `spelled` takes them, into four units each, low group first. The units
// past a number's last group are those of the group 0 with none to follow.
#[inline(always)]
fn lanes(first: u32, second: u32, third: u32, fourth: u32, alphabet: Alphabet) -> u8x16
    requires known { IsRadix alphabet.radix }
    requires in_bytes { alphabet.base + 2 * alphabet.radix ≤ 256 }
    requires first_small { first < alphabet.radix ^ 4 }
    requires second_small { second < alphabet.radix ^ 4 }
    requires third_small { third < alphabet.radix ^ 4 }
    requires fourth_small { fourth < alphabet.radix ^ 4 }
    ensures { result ≡ lane_units alphabet.base alphabet.radix first
        ++ (lane_units alphabet.base alphabet.radix second
        ++ (lane_units alphabet.base alphabet.radix third ++ lane_units alphabet.base
        alphabet.radix fourth)) }
{
    let bound = u32::from(alphabet.radix);
    let group = u32x4::splat(bound);
    let none = u32x4::splat(0);
    let numbers = u32x4::from_array([first, second, third, fourth]);
    let twos = numbers / group;
    let threes = twos / group;
    let fours = threes / group;
    let groups = numbers % group
        + twos % group * u32x4::splat(0x100)
        + threes % group * u32x4::splat(0x1_0000)
        + fours * u32x4::splat(0x100_0000);
    let marks = numbers.simd_ge(group).select(group, none)
        + twos
            .simd_ge(group)
            .select(u32x4::splat(bound * 0x100), none)
        + threes
            .simd_ge(group)
            .select(u32x4::splat(bound * 0x1_0000), none);
    (groups + marks + u32x4::splat(u32::from(alphabet.base) * EACH_BYTE)).to_le_bytes()
}
