//! Sizes of moderate doubles in whole units, by few operations. A double is moderate if its
//! exponent is one of 64, which depend on the factor.
ghost use Rattle.std.specs.Prelude.{◌≡◌, ◌%◌, ◌^◌, ◌<◌, ◌≤◌, IfSome, IsSome};
ghost use Rattle.twkb_buffer.specs.RoundedNumbers.{IsFinite, IsMultiplier, IsNearest, above_halfway, below_halfway};
ghost use Rattle.twkb_buffer.specs.RoundedNumbers.{significand};

use crate::binary64::{LEADING_BIT, exponent_field};

// The greatest exponent of moderate doubles at a factor below 2^24: their size is below 2^45 units.
const GREATEST: u64 = 1043;

// A factor of at most 10^6 has four bits fewer.
const SMALL_FACTOR: u64 = 1_000_000;

const FEWER_BITS: u64 = 4;

// The most places by which a product is shifted.
const MOST_PLACES: u64 = 63;

// A number is multiplied in two parts, the low one of so many bits.
const LOW_BITS: u64 = 32;

// A factor of a scale, the same times a power of two, and the greatest exponent of doubles that are
// moderate.
#[derive(Clone, Copy)]
pub(crate) struct Multiplier {
    factor: u64,
    multiple: u64,
    greatest: u64,
}

// What moderate doubles are multiplied by. The factor must be 1 to 10^7.
pub(crate) fn multiplier_of(factor: u64) -> Multiplier
    requires positive { 0 < factor }
    requires most { factor ≤ 10 ^ 7 }
    ensures factor { result.factor ≡ factor }
    ensures multiplier { IsMultiplier result }
{
    if factor <= SMALL_FACTOR {
        Multiplier {
            factor,
            multiple: factor << FEWER_BITS,
            greatest: GREATEST + FEWER_BITS,
        }
    } else {
        Multiplier {
            factor,
            multiple: factor,
            greatest: GREATEST,
        }
    }
}

// The whole number of units, at most 10^14, nearest to the point halfway between a double and the
// next greater one in size, as `halfway_size` finds it; `None` if the double is not moderate.
#[inline(always)]
pub(crate) fn moderate_size(number: u64, multiplier: Multiplier) -> Option<u64>
    requires { IsMultiplier multiplier }
    ensures finite { IsSome result → IsFinite number }
    ensures few { IfSome result (λ size. size ≤ 10 ^ 14) }
    ensures nearest { IfSome result (IsNearest (above_halfway multiplier.factor number) (below_halfway 1 number)
        (significand number % 2)) }
{
    let places = multiplier.greatest.wrapping_sub(exponent_field(number));
    if places > MOST_PLACES {
        return None;
    }
    let odd = 2 * (number % LEADING_BIT) + (2 * LEADING_BIT + 1);
    let low = (odd % (1 << LOW_BITS)) * multiplier.multiple;
    let high = (odd >> LOW_BITS) * multiplier.multiple + (low >> LOW_BITS);
    Some(((high >> places) + 1) >> 1)
}
