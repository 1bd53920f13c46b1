//! Decimals of any number of digits and any exponent, in time linear in their length.
ghost use Rattle.std.specs.Prelude.{◌≡◌, ◌≤◌, ◌<◌, ◌+◌, ◌-◌, ◌*◌, ◌^◌, ◌++◌, ℕ, length, min, take};
ghost use Rattle.std.specs.Str.Parse.{digits_value, AllDigits};
ghost use Rattle.twkb_features.specs.Decimal.{FindsSize, IsNearest, above, below};
ghost use Rattle.twkb_features.specs.Digits.{IsPoint};

use core::dec2flt::{Numeral, digit_at, ten_to};

// The greatest size that a coordinate may have.
const MOST_SIZE: u128 = 1 << 62;

// A size beyond all coordinates.
const BEYOND: u128 = MOST_SIZE + 1;

// More zeros than any coordinate has.
const MANY_ZEROS: u128 = 19;

// The whole number nearest to a decimal in units of 10^-`precision`, or `None` if it is beyond all
// coordinates.
pub(crate) fn long_size(precision: i8, numeral: &Numeral) -> Option<u64>
    ensures { FindsSize (above precision numeral.now) (below precision numeral.now) result }
{
    let (whole, fraction) = (numeral.whole(), numeral.fraction());
    let Some(point) = point_of(precision, numeral) else {
        return Some(0);
    };
    let count = whole.len() as u128 + fraction.len() as u128;
    if point < count {
        cut_size(whole, fraction, point as usize)
    } else {
        raised_size(whole, fraction, (point - count) as u64)
    }
}

// How many digits are before the point of the decimal in units, with zeros if it has fewer; no more
// than `MANY_ZEROS` of them. `None` if the point is before a zero before the first digit.
fn point_of(precision: i8, numeral: &Numeral) -> Option<u128>
    ensures { IsPoint precision numeral.now result }
{
    let power = u128::from(numeral.saturated_exponent());
    let places = u128::from(precision.unsigned_abs());
    let count = numeral.whole().len() as u128 + numeral.fraction().len() as u128;
    let (mut up, mut down) = (numeral.whole().len() as u128, 0);
    if numeral.is_exponent_negative() {
        down += power;
    } else {
        up += power;
    }
    if precision < 0 {
        down += places;
    } else {
        up += places;
    }
    if up < down {
        return None;
    }
    Some((up - down).min(count + MANY_ZEROS))
}

// The whole number nearest to the digits if the point is before one of them.
fn cut_size(whole: &[u8], fraction: &[u8], kept: usize) -> Option<u64>
    requires digits { AllDigits 10 (whole.now ++ fraction.now) }
    requires within { kept < length whole.now + length fraction.now }
    ensures { FindsSize (digits_value 10 (whole.now ++ fraction.now))
        (10 ^ (length whole.now + length fraction.now - kept)) result }
{
    let size = leading(whole, fraction, kept);
    size_in_range(size + rounded_up(digit_at(whole, fraction, kept)))
}

// One if the first digit that is left out is 5 or above, and 0 if not.
fn rounded_up(digit: u64) -> u128
    ensures up { 5 ≤ digit → result ≡ 1 }
    ensures down { digit < 5 → result ≡ 0 }
    ensures most { result ≤ 1 }
{
    if digit >= 5 { 1 } else { 0 }
}

// The number of the digits and so many zeros after them, or 19 if they are more.
fn raised_size(whole: &[u8], fraction: &[u8], zeros: u64) -> Option<u64>
    requires digits { AllDigits 10 (whole.now ++ fraction.now) }
    ensures { (z : ℕ) → zeros ≡ min z 19
        → FindsSize (digits_value 10 (whole.now ++ fraction.now) * 10 ^ z) 1 result }
{
    let size = leading(whole, fraction, whole.len() + fraction.len());
    if size == 0 {
        return Some(0);
    }
    if zeros > 18 {
        return None;
    }
    size_in_range(size * u128::from(ten_to(zeros)))
}

// This size; `None` if it is above 2^62, and so beyond all coordinates.
fn size_in_range(size: u128) -> Option<u64>
    ensures { (above below whole : ℕ) → size ≤ whole → (size ≤ 2 ^ 62 → size ≡ whole)
        → IsNearest above below whole → FindsSize above below result }
{
    if size > MOST_SIZE {
        return None;
    }
    Some(size as u64)
}

// The number of the first digits, or `BEYOND` if that is less.
fn leading(whole: &[u8], fraction: &[u8], count: usize) -> u128
    requires digits { AllDigits 10 (whole.now ++ fraction.now) }
    requires within { count ≤ length whole.now + length fraction.now }
    ensures { result ≡ min (digits_value 10 (take count (whole.now ++ fraction.now))) (2 ^ 62 + 1) }
{
    let mut size = 0u128;
    for at in 0..count {
        size = (size * 10 + u128::from(digit_at(whole, fraction, at))).min(BEYOND);
    }
    size
}
