//! Numbers of JSON as coordinates.
ghost use Rattle.std.specs.Prelude.{◌≡◌};
ghost use Rattle.twkb_features.specs.Decimal.{FindsUnits, is_below_zero, after_minus, HasSign};

use crate::decimal::nearest_size;

/// The coordinate nearest to a number of JSON (RFC 8259, section 6), in units of 10^-`precision`: of
/// two the one farther from 0. The decimal is taken as it is written, exactly, whatever the number
/// of its digits or its exponent. `None` if there is no such coordinate. Takes no memory. Of a text
/// that is no number, the number at its start counts, and 0 if it has none.
#[inline(always)]
pub fn nearest_coordinate(precision: i8, text: &[u8]) -> Option<i64>
    ensures { FindsUnits precision text.now result }
{
    let size = nearest_size(precision, without_minus(text))?;
    with_sign(has_minus(text), size)
}

// Whether a minus sign is first.
#[inline(always)]
fn has_minus(text: &[u8]) -> bool
    ensures { result ≡ is_below_zero text.now }
{
    !text.is_empty() && text[0] == b'-'
}

// The text after a minus sign.
#[inline(always)]
fn without_minus(text: &[u8]) -> &[u8]
    ensures { result.now ≡ after_minus text.now }
{
    if has_minus(text) { &text[1..] } else { text }
}

// A size with its sign, if that is a coordinate.
#[inline(always)]
fn with_sign(is_negative: bool, size: u64) -> Option<i64>
    ensures { HasSign is_negative size result }
{
    if is_negative && size <= 1 << 62 {
        return Some(-(size as i64));
    }
    if is_negative || size >= 1 << 62 {
        return None;
    }
    Some(size as i64)
}
