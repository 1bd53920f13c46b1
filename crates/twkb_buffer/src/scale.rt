//! The powers of ten by which numbers become counts of a unit.
ghost use Rattle.std.specs.Prelude.{◌≡◌, ◌↔◌, IfSome, IsNone};
ghost use Rattle.twkb_tree.specs.Tree.{IsPrecision};
ghost use Rattle.twkb_buffer.specs.RoundedNumbers.{IsScale, divisor_at, divisor_of, factor_at, factor_of};

use twkb_tree::{GREATEST_PRECISION, LEAST_PRECISION};

// A power of ten by which numbers are multiplied or divided.
#[derive(Clone, Copy)]
pub(crate) enum Scale {
    Times(u64),
    Over(u64),
}

// The scale that turns numbers into counts of units of 10^-precision; `None` if the precision is
// not from -8 to 7.
pub(crate) fn scale_of(precision: i32) -> Option<Scale>
    ensures range { IsNone result ↔ ¬ IsPrecision precision }
    ensures factor { IfSome result (λ scale. factor_of scale ≡ factor_at precision) }
    ensures divisor { IfSome result (λ scale. divisor_of scale ≡ divisor_at precision) }
    ensures scale { IfSome result IsScale }
{
    if precision < i32::from(LEAST_PRECISION) || i32::from(GREATEST_PRECISION) < precision {
        return None;
    }
    let power = 10u64.pow(precision.unsigned_abs());
    if precision < 0 {
        Some(Scale::Over(power))
    } else {
        Some(Scale::Times(power))
    }
}
