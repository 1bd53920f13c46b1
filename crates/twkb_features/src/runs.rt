//! Runs of bytes that leave the nesting of a JSON text as it is, sixteen bytes at a time.
ghost use Rattle.std.specs.Prelude.{◌≡◌, ◌==◌, ◌<◌, ◌≤◌, ℕ, length, slice_index, false, nat_le, if◌then◌else◌};
ghost use Rattle.std.specs.Int.{trailing_zeros, w64};
ghost use Rattle.twkb_features.specs.Taken.{ArePlain};

use crate::nesting::Place;
use std::simd::u8x16;

// The number of bytes that a run is looked for in.
const LANES: usize = 16;

// The first byte above those of numbers, commas and blanks. All brackets are from here on.
const ABOVE_NUMBERS: u8 = b'[';

// The number of bytes at the start that leave this place and every depth as they are, at most
// sixteen, as far as is seen at once.
#[inline(always)]
pub(crate) fn plain_run(place: Place, bytes: &[u8]) -> usize
    ensures within { result ≤ length bytes.now }
    ensures plain { ArePlain place bytes.now result }
{
    if bytes.len() < LANES {
        return 0;
    }
    match place {
        Place::Outside => outside_run(bytes),
        Place::InString => string_run(bytes),
        Place::Escaped => 0,
    }
}

// The number of the first sixteen bytes before a bracket, a quote or a letter.
#[inline(always)]
#[tactic(auto, using(crate::proofs::RunLemmas::plain_outside))]
fn outside_run(bytes: &[u8]) -> usize
    requires long { 16 ≤ length bytes.now }
    ensures within { result ≤ 16 }
    ensures plain { ArePlain Place.Outside bytes.now result }
{
    let low = run_below(ABOVE_NUMBERS, bytes);
    let unquoted = run_without(b'"', bytes);
    if low < unquoted { low } else { unquoted }
}

// The number of the first sixteen bytes before a quote or a backslash.
#[inline(always)]
#[tactic(auto, using(crate::proofs::RunLemmas::plain_in_string))]
fn string_run(bytes: &[u8]) -> usize
    requires long { 16 ≤ length bytes.now }
    ensures within { result ≤ 16 }
    ensures plain { ArePlain Place.InString bytes.now result }
{
    let unescaped = run_without(b'\\', bytes);
    let unquoted = run_without(b'"', bytes);
    if unescaped < unquoted {
        unescaped
    } else {
        unquoted
    }
}

// The number of the first sixteen bytes before the first that is this one.
#[inline(always)]
fn run_without(byte: u8, bytes: &[u8]) -> usize
    requires long { 16 ≤ length bytes.now }
    ensures within { result ≤ 16 }
    ensures none { (k : ℕ) → k < result → (slice_index bytes.now k == byte) ≡ false }
{
    let marks = u8x16::from_slice(bytes)
        .simd_eq(u8x16::splat(byte))
        .to_bitmask();
    first_mark(marks)
}

// The number of the first sixteen bytes before the first that is this one or above.
#[inline(always)]
fn run_below(least: u8, bytes: &[u8]) -> usize
    requires long { 16 ≤ length bytes.now }
    ensures within { result ≤ 16 }
    ensures none { (k : ℕ) → k < result → nat_le least (slice_index bytes.now k) ≡ false }
{
    let marks = u8x16::splat(least)
        .simd_le(u8x16::from_slice(bytes))
        .to_bitmask();
    first_mark(marks)
}

// The place of the lowest bit, or 16 if there is none.
#[inline(always)]
fn first_mark(marks: u64) -> usize
    ensures { result ≡ (if marks == 0 then 16 else trailing_zeros w64 marks) }
{
    if marks == 0 {
        16
    } else {
        marks.trailing_zeros() as usize
    }
}
