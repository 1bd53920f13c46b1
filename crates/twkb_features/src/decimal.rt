//! The whole number nearest to a decimal without a sign.
ghost use Rattle.std.specs.Prelude.{◌≡◌, ◌≤◌, ◌<◌, ◌+◌, ◌*◌, ◌^◌, pos, IfSome};
ghost use Rattle.std.specs.Float.Numeral.{scan_numeral};
ghost use Rattle.twkb_features.specs.Decimal.{FindsSize, IsNearest, above, below};
ghost use Rattle.twkb_features.specs.Digits.{IsPlain};

use crate::digits::read_digits;
use crate::long_decimal::long_size;
use core::dec2flt::{Numeral, ten_to};

// The most characters of a plain decimal. Its digits fit 64 bits.
const MOST_PLAIN: usize = 18;

// The greatest precision at which plain decimals are read.
const MOST_DECIMALS: i8 = 7;

// The most digits before the point of a plain decimal.
const MOST_WHOLE: usize = 10;

// The whole number nearest to a decimal in units of 10^-`precision`, or `None` if it is beyond all
// coordinates.
#[inline(always)]
#[tactic(auto, using(crate::proofs::PlainLemmas::plain_found))]
pub(crate) fn nearest_size(precision: i8, text: &[u8]) -> Option<u64>
    ensures { FindsSize (above precision (scan_numeral text.now)) (below precision (scan_numeral text.now)) result }
{
    let Some(decimals) = few_decimals(precision) else {
        return any_size(precision, text);
    };
    let Some((digits, places)) = read_plain(text) else {
        return any_size(precision, text);
    };
    Some(scaled(digits, places, decimals))
}

// A precision from 0 to 7.
#[inline(always)]
fn few_decimals(precision: i8) -> Option<u64>
    ensures { IfSome result (λ decimals. (precision ≡ pos decimals) × (decimals ≤ 7)) }
{
    if precision < 0 || precision > MOST_DECIMALS {
        return None;
    }
    Some(precision as u64)
}

// Reads a plain decimal: at most ten digits, and digits after a point, with no exponent.
#[inline(always)]
fn read_plain(text: &[u8]) -> Option<(u64, u64)>
    ensures { IfSome result (λ r. IsPlain (scan_numeral text.now) r.0 r.1) }
{
    if text.len() > MOST_PLAIN {
        return None;
    }
    let (point, whole) = read_digits(text, 0, 0);
    if point > MOST_WHOLE {
        return None;
    }
    if point == text.len() {
        return Some((whole, 0));
    }
    if text[point] != b'.' {
        return None;
    }
    let (end, digits) = read_digits(text, point + 1, whole);
    if end < text.len() {
        return None;
    }
    Some((digits, (end - point - 1) as u64))
}

// The whole number nearest to digits after so many of which the point is, in units of
// 10^-`precision`.
#[inline(always)]
fn scaled(digits: u64, places: u64, precision: u64) -> u64
    requires few { digits < 10 ^ (11 + places) }
    requires small { digits < 10 ^ 18 }
    requires short { places ≤ 17 }
    requires known { precision ≤ 7 }
    ensures { IsNearest (digits * 10 ^ precision) (10 ^ places) result }
{
    if places <= precision {
        return digits * ten_to(precision - places);
    }
    let part = ten_to(places - precision);
    (digits + part / 2) / part
}

// The same of any decimal. Out of line: few decimals need it.
#[inline(never)]
fn any_size(precision: i8, text: &[u8]) -> Option<u64>
    ensures { FindsSize (above precision (scan_numeral text.now)) (below precision (scan_numeral text.now)) result }
{
    long_size(precision, &Numeral::scan(text))
}
