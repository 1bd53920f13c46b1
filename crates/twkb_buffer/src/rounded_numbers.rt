//! Doubles rounded to coordinates in an array. Each double is given by its 64 bits, its `number`; a
//! scale must be one that `scale_of` gives.
ghost use Rattle.std.specs.Prelude.{◌≡◌, ℤ, ◌-◌, ◌*◌, ◌%◌, ◌^◌, ◌<◌, ◌≤◌, List, length};
ghost use Rattle.twkb_tree.specs.Tree.{IsPrecision};
ghost use Rattle.twkb_buffer.specs.RoundedNumbers.{IsFinite, exponent, significand, FindsNearest, FindsSize};
ghost use Rattle.twkb_buffer.specs.RoundedNumbers.{FindsUnit, IsMultiplier, Rounds, RoundsBefore, RoundsFront};
ghost use Rattle.twkb_buffer.specs.RoundedNumbers.{above, above_halfway, below};
ghost use Rattle.twkb_buffer.specs.RoundedNumbers.{below_halfway, rounded_report, IsScale, divisor_of, factor_of};
ghost use Rattle.twkb_buffer.specs.Polylines.{nothing_report};

use crate::binary64::{NOT_FINITE, exponent, exponent_field, signed, significand, with_sign};
use crate::fractions::{divided, multiplied};
use crate::moderate_sizes::{Multiplier, moderate_size, multiplier_of};
use crate::reason_numbers::{ARGUMENTS, REFUSED, TOO_SMALL, point_text_number};
use crate::report::{BufferReport, finished, nothing_put};
use crate::scale::{Scale, scale_of};
use twkb_polyline::PolyReason;

// A double of fewer units than these that is the nearest to a half counts as that half.
const SHORT: u64 = 100_000_000_000_000;

// The whole number of units nearest to `number * 2^(exponent - 1075)`, of two the smaller if `less`
// is 1, else the greater; `None` only if it is above 2^62. The number, here a significand, must be
// below 2^54, and 2^52 at least if the exponent is above 1; `less` must be 0, or 1 with an odd
// number.
fn nearest(number: u64, exponent: u64, scale: Scale, less: u64) -> Option<u64>
    requires scale { IsScale scale }
    requires number { number < 2 ^ 54 }
    requires leading { 1 < exponent → 2 ^ 52 ≤ number }
    requires less { less ≤ number % 2 }
    ensures { FindsNearest (number * 2 ^ (exponent - 1075) * factor_of scale)
        (2 ^ (1075 - exponent) * divisor_of scale) less result }
{
    match scale {
        Scale::Times(factor) => multiplied(number, exponent, factor, less),
        Scale::Over(divisor) => divided(number, exponent, divisor, less),
    }
}

// The whole number of units nearest to the exact size of a double, of two the greater; `None` only
// if it is above 2^62. Out of line: few doubles are too large for the rule of `halfway_size`.
#[inline(never)]
fn exact_size(number: u64, scale: Scale) -> Option<u64>
    requires { IsScale scale }
    ensures { FindsNearest (above (factor_of scale) number) (below (divisor_of scale) number) 0 result }
{
    nearest(significand(number), exponent(number), scale, 0)
}

// The whole number of units nearest to the point halfway between a double and the next greater one
// in size, of two the greater if the double is even, else the smaller; `None` only if it is above
// 2^62. So a double reaches a half to which no double is nearer; but an odd one does not reach a
// half that is just as near to the next greater one.
fn halfway_size(number: u64, scale: Scale) -> Option<u64>
    requires { IsScale scale }
    ensures { FindsNearest (above_halfway (factor_of scale) number) (below_halfway (divisor_of scale) number)
        (significand number % 2) result }
{
    let whole = significand(number);
    nearest(2 * whole + 1, exponent(number) - 1, scale, whole % 2)
}

// The size of a double, which must be finite, in whole units, rounded as `round_numbers` says;
// `None` only if it is above 2^62.
fn size_of(number: u64, scale: Scale) -> Option<u64>
    requires scale { IsScale scale }
    requires finite { IsFinite number }
    ensures { FindsSize (factor_of scale) (divisor_of scale) number result }
{
    match halfway_size(number, scale) {
        Some(size) if size <= SHORT => Some(size),
        _ => exact_size(number, scale),
    }
}

// The coordinate to which a double is rounded; `None` if the double is not finite, or the
// coordinate would be outside -2^62 to 2^62 - 1.
fn unit_of(number: u64, scale: Scale) -> Option<i64>
    requires { IsScale scale }
    ensures { FindsUnit (factor_of scale) (divisor_of scale) number result }
{
    if exponent_field(number) == NOT_FINITE {
        return None;
    }
    let size = size_of(number, scale)?;
    with_sign(number, size)
}

// Rounds doubles from the index `start` on into `units`, up to the first that is not moderate, and
// returns its index, or how many doubles there are. `start` must be at most their number, `units`
// must have a place for each, and the multiplier must be one that `multiplier_of` gives. Out of
// line: a loop with no call keeps its values in registers.
#[inline(never)]
fn round_moderate(numbers: &[u64], start: usize, multiplier: Multiplier, units: &mut [i64]) -> usize
    requires multiplier { IsMultiplier multiplier }
    requires start { start ≤ length numbers.now }
    requires room { length numbers.now ≤ length units.old }
    ensures least { start ≤ result }
    ensures most { result ≤ length numbers.now }
    ensures rounds { (old : List ℤ) → RoundsBefore multiplier.factor 1 numbers.now old units.old start
        → RoundsBefore multiplier.factor 1 numbers.now old units.new result }
{
    for at in start..numbers.len() {
        let number = numbers[at];
        let Some(size) = moderate_size(number, multiplier) else {
            return at;
        };
        units[at] = signed(number, size);
    }
    numbers.len()
}

// Rounds doubles at a scale from the index `start` on into `units`, up to the first that is not
// moderate, and returns its index, or how many doubles there are. `start` must be at most their
// number, and `units` must have a place for each. At a scale that divides, no double is moderate.
fn round_moderate_by(numbers: &[u64], start: usize, scale: Scale, units: &mut [i64]) -> usize
    requires scale { IsScale scale }
    requires start { start ≤ length numbers.now }
    requires room { length numbers.now ≤ length units.old }
    ensures least { start ≤ result }
    ensures most { result ≤ length numbers.now }
    ensures rounds { (old : List ℤ) → RoundsBefore (factor_of scale) (divisor_of scale) numbers.now old units.old start
        → RoundsBefore (factor_of scale) (divisor_of scale) numbers.now old units.new result }
{
    match scale {
        Scale::Times(factor) => round_moderate(numbers, start, multiplier_of(factor), units),
        Scale::Over(_) => start,
    }
}

// Rounds doubles into `units`, which must have a place for each, up to the first that has no
// coordinate, and returns how many it has rounded. Later places stay as they were.
fn round_front(numbers: &[u64], scale: Scale, units: &mut [i64]) -> usize
    requires scale { IsScale scale }
    requires room { length numbers.now ≤ length units.old }
    ensures { RoundsFront (factor_of scale) (divisor_of scale) numbers.now units.old units.new result }
{
    let mut count = 0;
    while count < numbers.len() {
        count = round_moderate_by(numbers, count, scale, units);
        if count < numbers.len() {
            let Some(unit) = unit_of(numbers[count], scale) else {
                return count;
            };
            units[count] = unit;
            count += 1;
        }
    }
    numbers.len()
}

// The report of a call that rounded the first `count` of `all` doubles: status 0 if those are all,
// else status 1, and `count` as the place of the one that is refused.
fn rounded(all: usize, count: usize) -> BufferReport
    ensures { result ≡ rounded_report all count }
{
    if count == all {
        return finished(1, count as u64);
    }
    BufferReport {
        reason: point_text_number(PolyReason::Range),
        place: count as u64,
        sent: count as u64,
        ..nothing_put(REFUSED, count as u64)
    }
}

/// Rounds doubles, given by their bits, to whole numbers of units of 10^-precision: the nearest, of
/// two the one farther from 0. Up to 10^14 units a double that is the nearest one to a half counts
/// as that half. Status 1: `place` is the index of the first double that is not finite, or whose
/// number of units is outside -2^62 to 2^62 - 1; the units before it are written. Nothing is
/// written if the precision is not from -8 to 7 (status 2), or `units` is shorter than `numbers`
/// (5). Takes no memory.
pub fn round_numbers(numbers: &[u64], precision: i32, units: &mut [i64]) -> BufferReport
    ensures rounds { IsPrecision precision → length numbers.now ≤ length units.old
        → Rounds precision numbers.now units.old units.new result }
    ensures small { IsPrecision precision → length units.old < length numbers.now
        → (units.new ≡ units.old) × (result ≡ nothing_report 5 (length numbers.now)) }
    ensures no_precision { (IsPrecision precision → ⊥)
        → (units.new ≡ units.old) × (result ≡ nothing_report 2 0) }
{
    let Some(scale) = scale_of(precision) else {
        return nothing_put(ARGUMENTS, 0);
    };
    if units.len() < numbers.len() {
        return nothing_put(TOO_SMALL, numbers.len() as u64);
    }
    rounded(numbers.len(), round_front(numbers, scale, units))
}
