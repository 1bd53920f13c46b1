//! Whole numbers nearest to fractions. If two are equally near, the result is the smaller one if
//! `less` is 1, and the greater one if it is 0; `less` must be one of these.
ghost use Rattle.std.specs.Prelude.{◌+◌, ◌-◌, ◌*◌, ◌%◌, ◌^◌, ◌<◌, ◌≤◌};
ghost use Rattle.twkb_buffer.specs.RoundedNumbers.{FindsNearest, IsNearest};

use twkb_points::COORDINATE_BOUND;

// The exponent of a number that counts whole ones.
const WHOLE: u64 = 1075;

// How many low bits of a number are multiplied apart from the others: a product with all bits may
// have 78 bits.
const LOW_BITS: u64 = 27;

// A product over a power of two of more places than these is less than a half.
const MOST_PLACES: u64 = 80;

// A number over a power of two of more places than these is less than a half.
const MOST_QUOTIENT_PLACES: u64 = 64;

// A number with the leading bit of a significand that is multiplied by a greater power of two is
// beyond all coordinates.
const GREATEST_POWER: u64 = 10;

// A number with the leading bit of a significand that is multiplied by a greater power of two, and
// then divided by at most 10^8, is beyond all coordinates.
const GREATEST_QUOTIENT_POWER: u64 = 36;

// The whole number nearest to `above / below`. `below` must be 1 to 2^27, and `2 * above + below`
// must be below 2^64.
fn rounded_quotient(above: u64, below: u64, less: u64) -> u64
    requires positive { 0 < below }
    requires below { below ≤ 2 ^ 27 }
    requires fits { 2 * above + below < 2 ^ 64 }
    requires less { less ≤ 1 }
    ensures { IsNearest above below less result }
{
    (2 * above + below - less) / (2 * below)
}

// The whole number nearest to `number * factor / divisor`; `None` only if it is above 2^62. The
// factor must not be 0, the divisor must be 1 to 2^27, and `divisor * factor + divisor` at most
// 2^63. A division tests the product: WebAssembly has no product of more than 64 bits.
fn large(number: u64, factor: u64, divisor: u64, less: u64) -> Option<u64>
    requires some { 0 < factor }
    requires positive { 0 < divisor }
    requires divisor { divisor ≤ 2 ^ 27 }
    requires small { divisor * factor + divisor ≤ 2 ^ 63 }
    requires less { less ≤ 1 }
    ensures { FindsNearest (number * factor) divisor less result }
{
    let whole = number / divisor;
    if whole > COORDINATE_BOUND / factor {
        return None;
    }
    Some(whole * factor + rounded_quotient((number % divisor) * factor, divisor, less))
}

// The whole number nearest to `number * factor / 2^places`. The number must be below 2^54, the
// factor 1 to 10^7, and `places` 28 to 80; `less` must be 0 if the number is even.
fn small_product(number: u64, factor: u64, places: u64, less: u64) -> u64
    requires number { number < 2 ^ 54 }
    requires positive { 0 < factor }
    requires factor { factor ≤ 10 ^ 7 }
    requires some { 28 ≤ places }
    requires few { places ≤ 80 }
    requires less { less ≤ number % 2 }
    ensures { IsNearest (number * factor) (2 ^ places) less result }
{
    let low = (number % (1 << LOW_BITS)) * factor - less;
    let high = (number >> LOW_BITS) * factor + (low >> LOW_BITS);
    ((high >> (places - LOW_BITS - 1)) + 1) >> 1
}

// The whole number nearest to `number / (2^places * divisor)`. The number must be below 2^54, the
// divisor 1 to 10^8, and `places` 1 to 64; `less` must be 0 if the number is even.
fn small_quotient(number: u64, divisor: u64, places: u64, less: u64) -> u64
    requires number { number < 2 ^ 54 }
    requires positive { 0 < divisor }
    requires divisor { divisor ≤ 10 ^ 8 }
    requires some { 0 < places }
    requires few { places ≤ 64 }
    requires less { less ≤ number % 2 }
    ensures { IsNearest number (2 ^ places * divisor) less result }
{
    (((number - less) >> (places - 1)) + divisor) / (2 * divisor)
}

// The whole number nearest to `number * 2^(exponent - 1075) * factor`; `None` only if it is above
// 2^62. The number must be below 2^54, and 2^52 at least if the exponent is above 1; the factor
// must be 1 to 10^7; `less` must be 0 if the number is even.
pub(crate) fn multiplied(number: u64, exponent: u64, factor: u64, less: u64) -> Option<u64>
    requires number { number < 2 ^ 54 }
    requires leading { 1 < exponent → 2 ^ 52 ≤ number }
    requires positive { 0 < factor }
    requires factor { factor ≤ 10 ^ 7 }
    requires less { less ≤ number % 2 }
    ensures { FindsNearest (number * 2 ^ (exponent - 1075) * factor) (2 ^ (1075 - exponent) * 1) less result }
{
    if exponent < WHOLE - MOST_PLACES {
        return Some(0);
    }
    if exponent < WHOLE - LOW_BITS {
        return Some(small_product(number, factor, WHOLE - exponent, less));
    }
    if exponent < WHOLE {
        return large(number, factor, 1 << (WHOLE - exponent), less);
    }
    if exponent > WHOLE + GREATEST_POWER {
        return None;
    }
    large(number, factor << (exponent - WHOLE), 1, less)
}

// The whole number nearest to `number * 2^(exponent - 1075) / divisor`; `None` only if it is above
// 2^62. The number must be below 2^54, and 2^52 at least if the exponent is above 1; the divisor
// must be 1 to 10^8; `less` must be 0 if the number is even.
pub(crate) fn divided(number: u64, exponent: u64, divisor: u64, less: u64) -> Option<u64>
    requires number { number < 2 ^ 54 }
    requires leading { 1 < exponent → 2 ^ 52 ≤ number }
    requires positive { 0 < divisor }
    requires divisor { divisor ≤ 10 ^ 8 }
    requires less { less ≤ number % 2 }
    ensures { FindsNearest (number * 2 ^ (exponent - 1075) * 1) (2 ^ (1075 - exponent) * divisor) less result }
{
    if exponent < WHOLE - MOST_QUOTIENT_PLACES {
        return Some(0);
    }
    if exponent < WHOLE {
        return Some(small_quotient(number, divisor, WHOLE - exponent, less));
    }
    if exponent > WHOLE + GREATEST_QUOTIENT_POWER {
        return None;
    }
    large(number, 1 << (exponent - WHOLE), divisor, less)
}
