//! Coordinates whose whole part is below 1,000, as those of longitude and latitude are, by few steps.
ghost use Rattle.std.specs.Prelude.{◌≡◌, ◌≤◌, ◌<◌, ◌+◌, ◌-◌, ◌*◌, ◌^◌, ◌++◌, pos, nat_abs, length, decimal};
ghost use Rattle.twkb_geojson.specs.Coordinate.{coordinate_text, size_text, fraction_text};

use crate::coordinate::{ZEROS, byte_count, push_fraction, split, ten_to};
use crate::digits::six_digits;
use crate::tables::short_decimal;
use twkb_num::Piece;

// Appends the decimal of a coordinate in units of 10^-`places` whose whole part is below 1,000: at
// most 13 characters. `places` must be at most 7, and the piece must have room for 19.
#[inline(always)]
pub(crate) fn push_near(places: u32, units: i64, piece: &mut Piece<256>)
    requires few { places ≤ 7 }
    requires near { nat_abs units < 1000 * 10 ^ places }
    requires room { length piece.old + 19 ≤ 256 }
    ensures appended { piece.new ≡ piece.old ++ coordinate_text (pos places) units }
    ensures most { length piece.new ≤ length piece.old + 13 }
{
    if units < 0 {
        piece.push(b'-');
    }
    push_near_size(places, units.unsigned_abs(), piece);
}

// Appends the decimal of a size in units of 10^-`places` whose whole part is below 1,000: at most
// 12 characters. `places` must be at most 7, and the piece must have room for 18.
#[inline(always)]
fn push_near_size(places: u32, size: u64, piece: &mut Piece<256>)
    requires few { places ≤ 7 }
    requires near { size < 1000 * 10 ^ places }
    requires room { length piece.old + 18 ≤ 256 }
    ensures appended { piece.new ≡ piece.old ++ size_text (pos places) size }
    ensures most { length piece.new ≤ length piece.old + 12 }
{
    let (whole, fraction) = split(size, ten_to(places));
    push_hundreds(whole as u32, piece);
    push_rest(places, fraction, piece);
}

// Appends the decimal of a number below 1,000: at most 3 characters. The piece must have room for
// 9.
#[inline(always)]
fn push_hundreds(number: u32, piece: &mut Piece<256>)
    requires below { number < 1000 }
    requires room { length piece.old + 9 ≤ 256 }
    ensures appended { piece.new ≡ piece.old ++ decimal number }
    ensures most { length piece.new ≤ length piece.old + 3 }
{
    let word = short_decimal(number);
    piece.push_low(u64::from(word), word / 0x100_0000);
}

// Appends a point and the digits of a fraction in parts of 10^-`places`, or nothing if it is 0: at
// most 9 characters. `places` must be at most 7, and the piece must have room for those.
#[inline(always)]
fn push_rest(places: u32, fraction: u32, piece: &mut Piece<256>)
    requires few { places ≤ 7 }
    requires below { fraction < 10 ^ places }
    requires room { length piece.old + 9 ≤ 256 }
    ensures appended { piece.new ≡ piece.old ++ fraction_text (fraction * 10 ^ (8 - places)) }
    ensures most { length piece.new ≤ length piece.old + 9 }
{
    if places <= 6 {
        push_six(fraction * ten_to(6 - places), piece);
    } else {
        push_fraction(fraction * ten_to(8 - places), piece);
    }
}

// Appends a point and the digits of a fraction in parts of 10^-6, or nothing if it is 0: at most 9
// characters. The piece must have room for those.
#[inline(always)]
fn push_six(fraction: u32, piece: &mut Piece<256>)
    requires below { fraction < 1000000 }
    requires room { length piece.old + 9 ≤ 256 }
    ensures appended { piece.new ≡ piece.old ++ fraction_text (fraction * 100) }
    ensures most { length piece.new ≤ length piece.old + 9 }
{
    if fraction != 0 {
        piece.push(b'.');
        let digits = six_digits(fraction);
        piece.push_low(digits + ZEROS, byte_count(digits));
    }
}
