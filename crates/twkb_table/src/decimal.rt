//! Canonical decimals: digits without a leading zero, after a minus sign if the number is negative.
ghost use Rattle.std.specs.Prelude.{◌≡◌, ◌++◌, ◌≤◌, ◌<◌, ◌^◌, IfSome, OnOk, OnErr, decimal, get_or, length};
ghost use Rattle.std.specs.Prelude.{take, pos, true, int_lt};
ghost use lib.Lanes.{Each1};
ghost use Rattle.std.specs.Fmt.{signed_decimal};
ghost use Rattle.twkb_table.specs.Record.{Reads, IsDepthField, IsIdField, IsPrecisionField, IsOptionalId};
ghost use Rattle.twkb_table.specs.Record.{IsOptionalPrecision, eight_digits};

use itoa::Buffer;
use std::alloc::AllocError;
use std::simd::{u8x8, u16x4};
use twkb_tree::{GREATEST_PRECISION, LEAST_PRECISION};

// The greatest depth of a row (profile).
const GREATEST_DEPTH: u32 = 999;

// The number of digits that are read at once.
const EIGHT: usize = 8;

// The greatest number that stays an i64 with any digit appended.
const MOST_BEFORE_A_DIGIT: u64 = 922_337_203_685_477_579;

// The least precision, as an i64.
const LEAST: i64 = LEAST_PRECISION as i64;

// The greatest precision, as an i64.
const GREATEST: i64 = GREATEST_PRECISION as i64;

/// Reads a depth from 0 to 999 from its canonical decimal; `None` for any other field (profile).
/// Takes no memory.
#[inline(always)]
pub fn parse_depth(field: &[u8]) -> Option<u32>
    ensures reads { Reads (IsDepthField field.now) result }
{
    match field {
        // one digit, as in most rows
        [digit] if b'0' <= *digit && *digit <= b'9' => Some(u32::from(*digit - b'0')),
        _ => long_depth(field),
    }
}

// Reads a depth from 0 to 999 from its canonical decimal of any length; `None` for any other field.
// Out of line: few depths have more than one digit.
#[inline(never)]
fn long_depth(field: &[u8]) -> Option<u32>
    ensures reads { Reads (IsDepthField field.now) result }
{
    match parse_id(field) {
        Some(depth) if 0 <= depth && depth <= GREATEST_DEPTH as i64 => Some(depth as u32),
        _ => None,
    }
}

/// Reads an id, any i64, from its canonical decimal; `None` for any other field (profile). Takes
/// no memory.
#[inline(always)]
pub fn parse_id(field: &[u8]) -> Option<i64>
    ensures reads { Reads (IsIdField field.now) result }
{
    match field {
        // one digit, as most fields have
        [digit] if b'0' <= *digit && *digit <= b'9' => Some(i64::from(*digit - b'0')),
        _ => read_number(field),
    }
}

// Fast path: reads an i64 above 0 from its canonical decimal, unless it is one of the greatest.
// `None` proves nothing about the field.
#[inline(always)]
fn digits_of(field: &[u8]) -> Option<i64>
    ensures some { IfSome result (λ id. IsIdField field.now id) }
    ensures positive { IfSome result (λ id. int_lt (pos 0) id ≡ true) }
{
    let first = *field.first()?;
    if first < b'1' || b'9' < first {
        return None;
    }
    let (mut number, read) = first_digits(field)?;
    for at in read..field.len() {
        let digit = field[at];
        if digit < b'0' || b'9' < digit || MOST_BEFORE_A_DIGIT < number {
            return None;
        }
        number = number * 10 + u64::from(digit - b'0');
    }
    Some(number.cast_signed())
}

// Fast path: reads an i64 below 0 from its canonical decimal, unless it is one of the least. `None`
// proves nothing about the field.
#[inline(always)]
fn negative_of(field: &[u8]) -> Option<i64>
    ensures some { IfSome result (λ id. IsIdField field.now id) }
{
    let [b'-', digits @ ..] = field else {
        return None;
    };
    let size = digits_of(digits)?;
    Some(-size)
}

// Fast path: the number that the first eight bytes of a field spell as decimal digits, and 8; of a
// shorter field, the value of its first digit, and 1. `None` proves nothing about the field, which
// must begin with a digit from 1 to 9.
#[inline(always)]
fn first_digits(field: &[u8]) -> Option<(u64, usize)>
    requires some { 0 < length field.now }
    requires low { 49 ≤ get_or field.now 0 0 }
    requires high { get_or field.now 0 0 ≤ 57 }
    ensures spelled { IfSome result (λ r. decimal r.0 ≡ take r.1 field.now) }
    ensures above { IfSome result (λ r. 0 < r.0) }
    ensures few { IfSome result (λ r. r.0 < 10 ^ 8) }
    ensures within { IfSome result (λ r. r.1 ≤ length field.now) }
{
    if field.len() < EIGHT {
        return Some((u64::from(field[0] - b'0'), 1));
    }
    let digits = u8x8::from_slice(field) - u8x8::splat(b'0');
    if digits.simd_gt(u8x8::splat(9)).to_bitmask() != 0 {
        return None;
    }
    Some((number_of_eight(digits), EIGHT))
}

// The number with these eight decimal digits, the highest first; each must be below 10. Two digits
// are joined in each lane, then all four lanes.
#[inline(always)]
fn number_of_eight(digits: u8x8) -> u64
    requires { Each1 (λ digit. digit < 10) digits }
    ensures { result ≡ eight_digits digits }
{
    let lanes = u16x4::from_le_bytes(digits);
    let byte = u16x4::splat(0x100);
    let [a, b, c, d] = (lanes % byte * u16x4::splat(10) + lanes / byte).to_array();
    ((u64::from(a) * 100 + u64::from(b)) * 100 + u64::from(c)) * 100 + u64::from(d)
}

// Reads an id as `parse_id` does, by the fast paths first. Out of line: most fields have one digit.
#[inline(never)]
fn read_number(field: &[u8]) -> Option<i64>
    ensures reads { Reads (IsIdField field.now) result }
{
    if let Some(id) = digits_of(field) {
        return Some(id);
    }
    if let Some(id) = negative_of(field) {
        return Some(id);
    }
    read_decimal(field)
}

// Reads an id as `parse_id` does: parses it with std, and compares the field with the decimal that
// `itoa` prints. Out of line: few fields need it.
#[inline(never)]
fn read_decimal(field: &[u8]) -> Option<i64>
    ensures reads { Reads (IsIdField field.now) result }
{
    let Ok(text) = str::from_utf8(field) else {
        return None;
    };
    let Ok(number) = text.parse::<i64>() else {
        return None;
    };
    let mut buffer = Buffer::new();
    if buffer.format(number).as_bytes() == field {
        Some(number)
    } else {
        None
    }
}

/// Reads a precision from -8 to 7 from its canonical decimal; `None` for any other field
/// (profile). Takes no memory.
#[inline(always)]
pub fn parse_precision(field: &[u8]) -> Option<i8>
    ensures reads { Reads (IsPrecisionField field.now) result }
{
    match field {
        // one digit, as in most rows
        [digit] if b'0' <= *digit && *digit <= b'7' => Some((*digit - b'0') as i8),
        _ => long_precision(field),
    }
}

// Reads a precision from -8 to 7 from its canonical decimal of any length; `None` for any other
// field. Out of line: few precisions are negative.
#[inline(never)]
fn long_precision(field: &[u8]) -> Option<i8>
    ensures reads { Reads (IsPrecisionField field.now) result }
{
    match parse_id(field) {
        Some(precision) if LEAST <= precision && precision <= GREATEST => Some(precision as i8),
        _ => None,
    }
}

/// Reads an id that may be missing: `Some(None)` for an empty field, `None` for a field that is
/// neither empty nor the canonical decimal of an i64 (profile). Takes no memory.
#[inline(always)]
pub fn parse_optional_id(field: &[u8]) -> Option<Option<i64>>
    ensures reads { Reads (IsOptionalId field.now) result }
{
    if field.is_empty() {
        return Some(None);
    }
    Some(Some(parse_id(field)?))
}

/// Reads a precision that may be missing: `Some(None)` for an empty field, `None` for a field that
/// is neither empty nor a canonical decimal from -8 to 7 (profile). Takes no memory.
#[inline(always)]
pub fn parse_optional_precision(field: &[u8]) -> Option<Option<i8>>
    ensures reads { Reads (IsOptionalPrecision field.now) result }
{
    if field.is_empty() {
        return Some(None);
    }
    Some(Some(parse_precision(field)?))
}

/// Appends the canonical decimal of a number: its digits without a leading zero, after a minus
/// sign if it is negative (profile). Takes memory for the text alone; if it is refused, the text
/// is as it was.
pub fn push_decimal(text: &mut Vec<u8>, number: i64) -> Result<(), AllocError>
    ensures appended { OnOk result (text.new.items ≡ text.old.items ++ signed_decimal number) }
    ensures same { OnErr result (text.new.items ≡ text.old.items) }
{
    let mut buffer = Buffer::new();
    text.extend_from_slice(buffer.format(number).as_bytes())
}
