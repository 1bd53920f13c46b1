//! Where numbers end in a block of 64 units, as a word with a bit for each unit.
ghost use Rattle.std.specs.Prelude.{◌≡◌, ◌+◌, ◌*◌, ◌<◌, ◌≤◌, ◌^◌, ℕ, List, length, take, drop};
ghost use Rattle.twkb_num.specs.Block.{AreEnds, HasEndsOf, AreBelow, AreMarks, AreEndsBefore, units_in};

use crate::alphabet::{Alphabet, POLYLINES, VARINTS};
use std::simd::u8x16;

/// The number of units in a block.
pub const BLOCK: usize = 64;

/// A word with bit k set if byte k ends a varint of any length, for the first 63 bytes, and for
/// none from the first padded varint on (TWKB specification; LEB128). The word is 0 if there are
/// fewer than 64 bytes. Takes no memory.
#[inline(always)]
pub fn varint_ends(bytes: &[u8]) -> u64
    ensures ends { AreEnds 0 128 bytes.now result }
    ensures all { 64 ≤ length bytes.now → HasEndsOf 63 0 128 bytes.now result }
{
    block_ends(bytes, VARINTS)
}

/// A word with bit k set if character k ends a number of a polyline, of any length, for the first
/// 63 characters, and for none from the first that is outside the alphabet, or the first padded
/// number, on (Encoded Polyline Algorithm Format). The word is 0 if there are fewer than 64
/// characters. Takes no memory.
#[inline(always)]
pub fn character_ends(text: &[u8]) -> u64
    ensures ends { AreEnds 63 32 text.now result }
    ensures all { 64 ≤ length text.now → HasEndsOf 63 63 32 text.now result }
{
    block_ends(text, POLYLINES)
}

// A bit for each unit, the first lowest: whether it ends a number, is a last group of 0, or is
// outside the alphabet.
#[derive(Clone, Copy)]
pub(crate) struct Marks {
    pub(crate) ends: u64,
    pub(crate) zeros: u64,
    pub(crate) bad: u64,
}

// Marks the sixteen bytes from `at` on, which must be there, as units of the alphabet; each word of
// the marks is below 2^16.
#[inline(always)]
fn sixteen(bytes: &[u8], at: usize, alphabet: Alphabet) -> Marks
    requires long { at + 16 ≤ length bytes.now }
    ensures marks { AreMarks alphabet.radix alphabet.most
        (units_in alphabet.base (take 16 (drop at bytes.now))) result }
    ensures small { AreBelow (2 ^ 16) result }
{
    let units = u8x16::from_slice(&bytes[at..]) - u8x16::splat(alphabet.base);
    Marks {
        ends: units.simd_lt(u8x16::splat(alphabet.radix)).to_bitmask(),
        zeros: units.simd_eq(u8x16::splat(0)).to_bitmask(),
        bad: units.simd_gt(u8x16::splat(alphabet.most)).to_bitmask(),
    }
}

// Marks the 32 bytes from `at` on, which must be there, as units of the alphabet; each word of the
// marks is below 2^32.
#[inline(always)]
fn thirty_two(bytes: &[u8], at: usize, alphabet: Alphabet) -> Marks
    requires long { at + 32 ≤ length bytes.now }
    ensures marks { AreMarks alphabet.radix alphabet.most
        (units_in alphabet.base (take 32 (drop at bytes.now))) result }
    ensures small { AreBelow (2 ^ 32) result }
{
    let low = sixteen(bytes, at, alphabet);
    let high = sixteen(bytes, at + 16, alphabet);
    Marks {
        ends: low.ends + high.ends * 0x1_0000,
        zeros: low.zeros + high.zeros * 0x1_0000,
        bad: low.bad + high.bad * 0x1_0000,
    }
}

// Marks the first 64 bytes, as units of the alphabet; there must be 64.
#[inline(always)]
fn sixty_four(bytes: &[u8], alphabet: Alphabet) -> Marks
    requires long { 64 ≤ length bytes.now }
    ensures { AreMarks alphabet.radix alphabet.most (units_in alphabet.base (take 64 bytes.now)) result }
{
    let low = thirty_two(bytes, 0, alphabet);
    let high = thirty_two(bytes, 32, alphabet);
    Marks {
        ends: low.ends + high.ends * 0x1_0000_0000,
        zeros: low.zeros + high.zeros * 0x1_0000_0000,
        bad: low.bad + high.bad * 0x1_0000_0000,
    }
}

// The bits of the units that end a number, before the first fault and among the first 63. A fault
// is a unit outside the alphabet, or one that goes on before a last group of 0, which pads the
// number.
#[inline(always)]
fn before_fault(marks: Marks) -> u64
    ensures { (radix most : ℕ) (units : List ℕ) → AreMarks radix most units marks
        → AreEndsBefore radix most units result }
{
    // bit 63 is set so that there is always a first fault; the last of the 64 units is not looked
    // at
    let faults = marks.bad | (marks.zeros / 2 & !marks.ends) | 1 << 63;
    marks.ends % (1 << faults.trailing_zeros())
}

// The bits of the first 63 units that end a number, before the first fault (`before_fault`); 0 if
// there are fewer than 64 units. The alphabet's `most` must be 2 * `radix` - 1, and its greatest
// unit must fit a byte.
#[inline(always)]
fn block_ends(bytes: &[u8], alphabet: Alphabet) -> u64
    requires bound { alphabet.most + 1 ≡ 2 * alphabet.radix }
    requires in_bytes { alphabet.most + alphabet.base < 256 }
    ensures ends { AreEnds alphabet.base alphabet.radix bytes.now result }
    ensures all { 64 ≤ length bytes.now → HasEndsOf 63 alphabet.base alphabet.radix bytes.now result }
{
    if bytes.len() < BLOCK {
        return 0;
    }
    before_fault(sixty_four(bytes, alphabet))
}

// The bits of the first sixteen units that end a number, before the first fault (`before_fault`); 0
// if there are fewer than sixteen units. The alphabet's `most` must be below 2 * `radix`, and its
// greatest unit must fit a byte.
#[inline(always)]
pub(crate) fn few_ends(bytes: &[u8], alphabet: Alphabet) -> u64
    requires bound { alphabet.most < 2 * alphabet.radix }
    requires in_bytes { alphabet.most + alphabet.base < 256 }
    ensures { AreEnds alphabet.base alphabet.radix bytes.now result }
{
    if bytes.len() < 16 {
        return 0;
    }
    before_fault(sixteen(bytes, 0, alphabet))
}
