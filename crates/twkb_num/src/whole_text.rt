//! Two numbers that are a whole text or begin one, read at once.
ghost use Rattle.std.specs.Prelude.{IfSome, ◌≡◌, ◌+◌, ◌≤◌, ◌<◌, ◌^◌, ◌++◌, length, take, Bool, List};
ghost use lib.Lanes.{mask_l};
ghost use Rattle.twkb_num.specs.Alphabet.{five_unit};
ghost use Rattle.twkb_num.specs.Block.{units_in, first_and_last, eight_groups, AreMarked, AreTwoRuns};
ghost use Rattle.twkb_num.specs.Spelling.{shortest, zigzag_of};

use crate::alphabet::{FIRST_OPEN, POLYLINES};
use crate::four::joined;
use crate::signed::unzigzag;
use crate::word::eight_bytes;
use std::simd::{u8x16, u64x2};

// The number of characters in a word.
const WORD: usize = 8;

/// Fast path: reads the two signed numbers that are a whole polyline text, if each is in its
/// shortest spelling of at most eight characters and neither is 0 (Encoded Polyline Algorithm
/// Format). `None` proves nothing about the text: it is also the answer for fewer than eight or
/// more than sixteen characters. Takes no memory.
#[inline(always)]
pub fn two_in_text(text: &[u8]) -> Option<(i64, i64)>
    ensures spelled { IfSome result (λ r. text.now
        ≡ shortest five_unit 32 (zigzag_of r.0) ++ shortest five_unit 32 (zigzag_of r.1)) }
    ensures small { IfSome result (λ r. (zigzag_of r.0 < 2 ^ 40) × (zigzag_of r.1 < 2 ^ 40)) }
{
    let count = text.len();
    if count < WORD || 2 * WORD < count {
        return None;
    }
    let units = first_and_last_units(text);
    let ends = ends_of(units)?;
    let used = first_len(ends, count as u32)?;
    let rest = count as u32 - used;
    let [front, back] = u64x2::from_le_bytes(units).to_array();
    let (first, second) = numbers(
        front & (u64::MAX >> (64 - 8 * used)),
        back >> (64 - 8 * rest),
    );
    Some((unzigzag(first), unzigzag(second)))
}

/// Fast path: reads the first two signed numbers of a polyline text, as `two_in_text` reads those
/// of a whole text, and returns them and the number of their characters. `None` proves nothing
/// about the text: it is also the answer for a text of fewer than sixteen characters, and for two
/// numbers of fewer than eight together. Takes no memory.
#[inline(always)]
pub fn first_two(text: &[u8]) -> Option<(i64, i64, usize)>
    ensures within { IfSome result (λ r. r.2 ≤ length text.now) }
    ensures spelled { IfSome result (λ r. take r.2 text.now
        ≡ shortest five_unit 32 (zigzag_of r.0) ++ shortest five_unit 32 (zigzag_of r.1)) }
    ensures small { IfSome result (λ r. (zigzag_of r.0 < 2 ^ 40) × (zigzag_of r.1 < 2 ^ 40)) }
{
    let count = second_end(text)?;
    let (first, second) = two_in_text(&text[..count])?;
    Some((first, second, count))
}

// The number of characters of the first two numbers of a text; `None` if they do not end in its
// first sixteen characters, or if it has fewer. A character outside the alphabet counts too: as the
// end of a number if it is below 63, and otherwise as one that goes on.
#[inline(always)]
fn second_end(text: &[u8]) -> Option<usize>
    ensures { IfSome result (λ end. end ≤ length text.now) }
{
    if text.len() < 2 * WORD {
        return None;
    }
    let ends = u8x16::from_slice(text)
        .simd_lt(u8x16::splat(FIRST_OPEN))
        .to_bitmask();
    let later = ends & ends.wrapping_sub(1);
    if later == 0 {
        return None;
    }
    let end = later.trailing_zeros() as usize + 1;
    if end > 2 * WORD {
        return None;
    }
    Some(end)
}

// The units of the first eight characters of a text, and then those of its last eight; it must have
// at least eight. The difference from the first character of the alphabet wraps: a character below
// 63 becomes a unit of 193 or more, which `ends_of` refuses as one outside the alphabet.
#[inline(always)]
fn first_and_last_units(text: &[u8]) -> u8x16
    requires { 8 ≤ length text.now }
    ensures { result ≡ units_in 63 (first_and_last text.now) }
{
    let front = eight_bytes(text);
    let back = eight_bytes(&text[text.len() - WORD..]);
    u64x2::from_array([front, back]).to_le_bytes() - u8x16::splat(POLYLINES.base)
}

// A bit for each of sixteen units that ends a number; `None` if a unit is outside the alphabet or
// is 0, which is the number 0 or pads another number.
#[inline(always)]
fn ends_of(units: u8x16) -> Option<u64>
    ensures { IfSome result (AreMarked units) }
{
    let outside = (units - u8x16::splat(1))
        .simd_gt(u8x16::splat(POLYLINES.most - 1))
        .to_bitmask();
    if outside != 0 {
        return None;
    }
    Some(units.simd_lt(u8x16::splat(POLYLINES.radix)).to_bitmask())
}

// The number of characters of the first number of a text of `count` characters, 8 to 16. `ends` has
// a bit for each of its first eight and its last eight characters that ends a number. `None` if the
// text is not two numbers of at most eight characters each.
#[inline(always)]
fn first_len(ends: u64, count: u32) -> Option<u32>
    requires long { 8 ≤ count }
    requires short { count ≤ 16 }
    ensures some { IfSome result (λ used. 1 ≤ used) }
    ensures first_short { IfSome result (λ used. used ≤ 8) }
    ensures within { IfSome result (λ used. used < count) }
    ensures second_short { IfSome result (λ used. count ≤ used + 8) }
    ensures runs { IfSome result (λ used. (marks : List Bool) → length marks ≡ 16 → ends ≡ mask_l marks
        → AreTwoRuns marks used count) }
{
    let used = ends.trailing_zeros() + 1;
    if 8 < used || count <= used || used + 8 < count {
        return None;
    }
    let rest = count - used;
    if ends >> (16 - rest) != 1 << (rest - 1) {
        return None;
    }
    Some(used)
}

// The two numbers below 2^40 whose eight groups of five bits are in the bytes of two words, low
// group first. The group of a byte is the byte modulo 32.
#[inline(always)]
fn numbers(first: u64, second: u64) -> (u64, u64)
    ensures first { result.0 ≡ eight_groups first }
    ensures second { result.1 ≡ eight_groups second }
{
    let units = u64x2::from_array([first, second]).to_le_bytes();
    let [low, high, next_low, next_high] = joined(units, POLYLINES.radix).to_array();
    (
        u64::from(low) + (u64::from(high) << 20),
        u64::from(next_low) + (u64::from(next_high) << 20),
    )
}
