//! Points whose numbers are complete at the start of bytes, two and eight at a time.
ghost use Rattle.std.specs.Prelude.{◌≡◌, ℕ, ◌+◌, ◌≤◌, ◌/◌, ◌^◌, [], ◌∷◌, IfSome, length, drop};
ghost use Rattle.twkb_num.specs.Block.{AreEnds};
ghost use Rattle.twkb_points.specs.Point.{IsNear};
ghost use Rattle.twkb_points.specs.Steps.{AreStepsTo, last_of};

use crate::point::Pt;
use crate::steps::StepCode;
use twkb_num::{BLOCK, four_at, four_by_ends};

/// The number of points that are read at once from a block.
pub const POINTS_AT_ONCE: usize = 8;

/// The number of numbers that spell `POINTS_AT_ONCE` points.
pub const NUMBERS_AT_ONCE: u32 = 16;

/// The number of bytes from a search that found points in blocks to the next search.
pub const APART: usize = 32;

/// The number of bytes from a search in vain to the next: far points are in no block.
pub const FAR_APART: usize = 256;

/// Eight points whose numbers are complete at the start of bytes.
#[derive(Clone, Copy, Debug, PartialEq, Eq)]
pub struct Eight {
    pub points: [Pt; 8],
    /// The last of them.
    pub last: Pt,
    /// The number of bytes that spell them.
    pub used: usize,
    /// A bit for each byte after these bytes that ends a number, as in the `ends` of
    /// `eight_points`.
    pub ends: u64,
}

/// Fast path: reads two points from `start` on, the first as its step from `from` and the second as
/// its step from the first, and returns them and the number of their bytes. `start` must be at most
/// the number of bytes. `None` proves nothing about the bytes: it is also the answer for fewer than
/// sixteen, for fewer than six from `start` on, and for a number of five units or more. Takes no
/// memory.
#[inline(always)]
pub fn two_points<C: StepCode>(from: Pt, bytes: &[u8], start: usize) -> Option<(Pt, Pt, usize)>
    requires { start ≤ length bytes.now }
    ensures { IfSome result (λ two. AreStepsTo C.bytes_of from (drop start bytes.now) (two.0 ∷ two.1 ∷ []) two.2) }
{
    let four = C::x_first(four_at::<C>(bytes, start)?);
    let first = from.moved_near(four.first, four.second)?;
    let second = first.moved_near(four.third, four.fourth)?;
    Some((first, second, four.used))
}

// Reads two points as `two_points` does, from the start of at least sixteen bytes, by a bit for
// each byte that ends a number, as in `eight_points`. `from` must be at most 6 * 2^27 from an inner
// point in x and in y, so that the range needs no test; the second point is at most 2 * 2^27
// farther away than `from`. `ends`, shifted right by the number of bytes returned, are those of the
// bytes that remain.
#[inline(always)]
fn two_by<C: StepCode>(from: Pt, bytes: &[u8], ends: u64) -> Option<(Pt, Pt, usize)>
    requires near { IsNear 6 from }
    requires long { 16 ≤ length bytes.now }
    requires ends { AreEnds C.ALPHABET.base C.ALPHABET.radix bytes.now ends }
    ensures two { IfSome result (λ two. AreStepsTo C.bytes_of from bytes.now (two.0 ∷ two.1 ∷ []) two.2) }
    ensures onward { IfSome result (λ two. (n : ℕ) → IsNear n from → IsNear (n + 2) two.1) }
    ensures few { IfSome result (λ two. two.2 ≤ 16) }
    ensures rest { IfSome result (λ two. AreEnds C.ALPHABET.base C.ALPHABET.radix (drop two.2 bytes.now)
        (ends / 2 ^ two.2)) }
{
    let four = C::x_first(four_by_ends::<C>(bytes, ends)?);
    let one = from.step(four.first, four.second);
    let two = one.step(four.third, four.fourth);
    Some((one, two, four.used))
}

// Whether the code tests the fourth of eight points (`TESTS_FOURTH`), and this one is no inner
// point.
#[inline(always)]
fn fails_fourth<C: StepCode>(fourth: Pt) -> bool {
    C::TESTS_FOURTH && !fourth.is_inner()
}

/// Fast path: reads eight points from the start of the bytes, each as its step from the one before
/// it, the first from `from`. `ends` must have a bit for each byte that ends a number, up to some
/// byte, as for `twkb_num::four_by_ends`. `None` proves nothing about the bytes: it is also the
/// answer for fewer than 64, and if `from` is no inner point. Takes no memory.
#[inline(always)]
pub fn eight_points<C: StepCode>(from: Pt, bytes: &[u8], ends: u64) -> Option<Eight>
    requires { AreEnds C.ALPHABET.base C.ALPHABET.radix bytes.now ends }
    ensures points { IfSome result (λ eight. AreStepsTo C.bytes_of from bytes.now eight.points eight.used) }
    ensures count { IfSome result (λ eight. length eight.points ≡ 8) }
    ensures last { IfSome result (λ eight. last_of from eight.points ≡ eight.last) }
    ensures rest { IfSome result (λ eight. AreEnds C.ALPHABET.base C.ALPHABET.radix (drop eight.used bytes.now)
        eight.ends) }
{
    if bytes.len() < BLOCK {
        return None;
    }
    if !from.is_inner() {
        return None;
    }
    let (a, b, two) = two_by::<C>(from, bytes, ends)?;
    let (c, d, more) = two_by::<C>(b, &bytes[two..], ends >> (two as u32))?;
    // so that the first four points are worked out before the others are looked for, and fewer
    // values wait in memory
    if fails_fourth::<C>(d) {
        return None;
    }
    let four = two + more;
    let (e, f, more) = two_by::<C>(d, &bytes[four..], ends >> (four as u32))?;
    let six = four + more;
    let others = ends >> (six as u32);
    let (g, h, more) = two_by::<C>(f, &bytes[six..], others)?;
    Some(Eight {
        points: [a, b, c, d, e, f, g, h],
        last: h,
        used: six + more,
        ends: others >> (more as u32),
    })
}
