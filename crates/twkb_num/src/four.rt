//! Four complete numbers one after the other in some bytes, read at once, by masked decoding of
//! varints (Plaisance, Kurz, Lemire, "Vectorized VByte Decoding", 2015,
//! https://arxiv.org/abs/1503.07387). As in the paper, a bit for each unit says whether a number
//! ends with it, and these bits are the index of a table (`places`). The table gives a shuffle that
//! moves the units of each number into a lane of its own. Then the groups in all lanes are joined
//! at once (`joined`). Here a number has at most four units, and a table of 256 shuffles finds two
//! numbers.
ghost use Rattle.std.specs.Prelude.{IfSome, ◌≡◌, ◌^◌, ◌⊎◌, ◌/◌, ◌≤◌, length, drop, map};
ghost use lib.Lanes.{digits_l, number_l};
ghost use Rattle.twkb_num.specs.Alphabet.{unit_over, IsRadix};
ghost use Rattle.twkb_num.specs.Block.{SignedInFront, joined_groups, unzigzagged_bits, AreEnds};

use crate::alphabet::Alphabet;
use crate::block::few_ends;
use crate::groups::Numbered;
use crate::places::two_in_front;
use std::simd::{u8x16, u16x8, u32x4, u64x2};

/// Four signed numbers, and the number of bytes that spell them.
#[derive(Clone, Copy, Debug, PartialEq, Eq)]
pub struct Four {
    pub first: i64,
    pub second: i64,
    pub third: i64,
    pub fourth: i64,
    pub used: usize,
}

/// Fast path: reads the four signed numbers whose zigzag forms are spelled one after the other from
/// `start` on, each in its shortest spelling of at most four units. `None` proves nothing about the
/// bytes: it is also the answer for fewer than sixteen, and for fewer than six from `start` on.
/// Takes no memory.
#[inline(always)]
pub fn four_at<G: Numbered>(bytes: &[u8], start: usize) -> Option<Four>
    ensures { IfSome result (SignedInFront G.unit_of G.ALPHABET.radix (drop start bytes.now)) }
{
    if bytes.len() < WINDOW {
        return None;
    }
    // with fewer than sixteen bytes left, the last sixteen of all
    let from = start.min(bytes.len() - WINDOW);
    let skipped = start - from;
    if skipped > MOST_SKIPPED {
        return None;
    }
    let window = &bytes[from..from + WINDOW];
    let alphabet = G::ALPHABET;
    let ends = few_ends(window, alphabet) >> (skipped as u32);
    four_by(window, skipped as u32, ends, alphabet)
}

/// Fast path: reads four signed numbers, as `four_at` does, from the start of at least sixteen
/// bytes. `ends` must have a bit for each byte that ends a number, the first byte's lowest, up to
/// some byte before which all are in the alphabet and none pads a number: `varint_ends` and
/// `character_ends` return such bits. `ends >> used` has them for the bytes after the four numbers.
/// `None` proves nothing about the bytes. Takes no memory.
#[inline(always)]
pub fn four_by_ends<G: Numbered>(bytes: &[u8], ends: u64) -> Option<Four>
    requires long { 16 ≤ length bytes.now }
    requires ends { AreEnds G.ALPHABET.base G.ALPHABET.radix bytes.now ends }
    ensures four { IfSome result (SignedInFront G.unit_of G.ALPHABET.radix bytes.now) }
    ensures few { IfSome result (λ f. f.used ≤ 16) }
    ensures rest { IfSome result (λ f. AreEnds G.ALPHABET.base G.ALPHABET.radix (drop f.used bytes.now)
        (ends / 2 ^ f.used)) }
{
    four_by(bytes, 0, ends, G::ALPHABET)
}

// The number of bytes that are looked at: four numbers of at most four.
const WINDOW: usize = 16;

// The most bytes of a window before the start of the numbers: with fewer than six after it, a
// search mostly finds nothing, since they are one near point.
const MOST_SKIPPED: usize = WINDOW - 6;

// Times a number below 0x100, this is that number in each of eight bytes.
const EACH_PLACE: u64 = 0x0101_0101_0101_0101;

// Reads four signed numbers, as `four_at` does, after the first `skipped` of at least sixteen
// bytes, of exactly sixteen unless `skipped` is 0. `ends` must have the bits that `four_by_ends`
// needs, for the bytes after the skipped ones; `ends >> used` has them for the bytes after the four
// numbers. The radix of the alphabet must be 32 or 128. `None` proves nothing about the bytes.
#[inline(always)]
fn four_by(bytes: &[u8], skipped: u32, ends: u64, alphabet: Alphabet) -> Option<Four>
    requires known { IsRadix alphabet.radix }
    requires long { 16 ≤ length bytes.now }
    requires loaded { (skipped ≡ 0) ⊎ (length bytes.now ≡ 16) }
    requires ends { AreEnds alphabet.base alphabet.radix (drop skipped bytes.now) ends }
    ensures four { IfSome result (SignedInFront (unit_over alphabet.base alphabet.radix) alphabet.radix
        (drop skipped bytes.now)) }
    ensures few { IfSome result (λ f. f.used ≤ 16) }
    ensures rest { IfSome result (λ f. AreEnds alphabet.base alphabet.radix
        (drop f.used (drop skipped bytes.now)) (ends / 2 ^ f.used)) }
{
    let low = two_in_front(ends)?;
    let high = two_in_front(ends >> low.used)?;
    let low_places = low.places + u64::from(skipped) * EACH_PLACE;
    let high_places = high.places + u64::from(skipped + low.used) * EACH_PLACE;
    let places = u64x2::from_array([low_places, high_places]).to_le_bytes();
    let units = u8x16::from_slice(bytes) - u8x16::splat(alphabet.base);
    let numbers = joined(units.swizzle_dyn(places), alphabet.radix);
    let [first, second, third, fourth] = unzigzagged(numbers).to_array();
    Some(Four {
        first: i64::from(first.cast_signed()),
        second: i64::from(second.cast_signed()),
        third: i64::from(third.cast_signed()),
        fourth: i64::from(fourth.cast_signed()),
        used: (low.used + high.used) as usize,
    })
}

// Joins each four bytes into one number, the first group lowest: the group of a byte is the byte
// modulo `radix`, which must be 32 or 128.
#[inline(always)]
pub(crate) fn joined(units: u8x16, radix: u8) -> u32x4
    requires alphabet { IsRadix radix }
    ensures { result ≡ map (joined_groups radix) (digits_l (2 ^ 32) 4 (number_l 256 units)) }
{
    let square = u32x4::splat(u32::from(radix) * u32::from(radix));
    let groups = units % u8x16::splat(radix);
    let words = u16x8::from_le_bytes(groups);
    let byte = u16x8::splat(0x100);
    let twos = words % byte + words / byte * u16x8::splat(u16::from(radix));
    let lanes = u32x4::from_le_bytes(twos.to_le_bytes());
    let low = u32x4::splat(0x1_0000);
    lanes % low + lanes / low * square
}

// The number of each of four zigzag forms, as the 32 bits of an `i32`.
#[inline(always)]
fn unzigzagged(forms: u32x4) -> u32x4
    ensures { result ≡ map unzigzagged_bits forms }
{
    let half = forms / u32x4::splat(2);
    let even = (forms % u32x4::splat(2)).simd_eq(u32x4::splat(0));
    even.select(half, u32x4::splat(0xffff_ffff) - half)
}
