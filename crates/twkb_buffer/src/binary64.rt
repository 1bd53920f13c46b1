//! The parts of a double, given as the number that its 64 bits are (IEEE 754-2019, 3.4, binary64).
ghost use Rattle.std.specs.Prelude.{◌≡◌, ◌^◌, ◌<◌, ◌≤◌, SomeIff};
ghost use Rattle.twkb_points.specs.Point.{IsCoordinate};
ghost use Rattle.twkb_points.specs.declared.point.TheConstants.{COORDINATE_BOUND};
ghost use Rattle.twkb_buffer.specs.RoundedNumbers.{exponent, exponent_field, significand, with_sign};

use twkb_points::COORDINATE_BOUND;

// The weight of the lowest bit of the exponent, and of a significand's leading bit.
pub(crate) const LEADING_BIT: u64 = 1 << 52;

// The number of values that the eleven bits of an exponent have.
const EXPONENTS: u64 = 1 << 11;

// A double has its sign bit set if its number is this one or greater.
const SIGN_BIT: u64 = 1 << 63;

// The exponent of an infinity, and of what is no number.
pub(crate) const NOT_FINITE: u64 = EXPONENTS - 1;

// The eleven bits of a double's exponent; `NOT_FINITE` if the double is an infinity or NaN.
pub(crate) fn exponent_field(number: u64) -> u64
    ensures { result ≡ exponent_field number }
{
    (number / LEADING_BIT) % EXPONENTS
}

// The significand of a double as a whole number below 2^53, and at least 2^52 if the double's
// `exponent` is above 1. A finite double's size is its significand times 2^(`exponent` - 1075).
pub(crate) fn significand(number: u64) -> u64
    ensures value { result ≡ significand number }
    ensures fits { result < 2 ^ 53 }
    ensures leading { 1 < exponent number → 2 ^ 52 ≤ result }
{
    let fraction = number % LEADING_BIT;
    if exponent_field(number) == 0 {
        fraction
    } else {
        LEADING_BIT + fraction
    }
}

// The exponent of a double's significand, with 1075 added: 1 or more, and below 2^11. The size of a
// finite double is its significand times 2^(result - 1075).
pub(crate) fn exponent(number: u64) -> u64
    ensures value { result ≡ exponent number }
    ensures fits { result < 2 ^ 11 }
{
    exponent_field(number).max(1)
}

// The whole number that has this size and the sign of a double. The size must be at most 2^62.
pub(crate) fn signed(number: u64, size: u64) -> i64
    requires { size ≤ COORDINATE_BOUND }
    ensures { result ≡ with_sign number size }
{
    if number >= SIGN_BIT {
        -(size as i64)
    } else {
        size as i64
    }
}

// The coordinate that has this size and the sign of a double; `None` if that is not in the range of
// a coordinate, -2^62 to 2^62 - 1.
pub(crate) fn with_sign(number: u64, size: u64) -> Option<i64>
    ensures { SomeIff result (IsCoordinate (with_sign number size)) (with_sign number size) }
{
    if size > COORDINATE_BOUND {
        return None;
    }
    let unit = signed(number, size);
    (unit < COORDINATE_BOUND as i64).then_some(unit)
}
