//! Coordinates as exact decimals.
ghost use Rattle.std.specs.Prelude.{◌≡◌, ◌≤◌, ◌<◌, ◌≤ℤ◌, ◌+◌, ◌*◌, ◌/◌, ◌%◌, ◌^◌, ◌++◌, pos, negsuc, length, decimal};
ghost use Rattle.twkb_points.specs.Point.{IsCoordinate};
ghost use Rattle.twkb_tree.specs.Tree.{IsPrecision};
ghost use Rattle.twkb_geojson.specs.Coordinate.{coordinate_text, size_text, fraction_text, IsByteCount};

use crate::digits::{eight_digits, two_digits};
use itoa::Buffer;
use twkb_num::Piece;

// The character 0 in each of eight bytes.
pub(crate) const ZEROS: u64 = 0x3030_3030_3030_3030;

/// Appends the decimal of a coordinate, which is its units times 10^-`precision`: at most 30
/// characters. The piece must have room for 40. Takes no memory.
#[inline(always)]
pub fn push_coordinate(precision: i8, units: i64, piece: &mut Piece<256>)
    requires known { IsPrecision precision }
    requires in_range { IsCoordinate units }
    requires room { length piece.old + 40 ≤ 256 }
    ensures appended { piece.new ≡ piece.old ++ coordinate_text precision units }
    ensures most { length piece.new ≤ length piece.old + 30 }
{
    if units < 0 {
        piece.push(b'-');
    }
    push_size(precision, units.unsigned_abs(), piece);
}

// Appends the decimal of a size below 2^63 in units of this precision: at most 29 characters.
#[inline(always)]
fn push_size(precision: i8, size: u64, piece: &mut Piece<256>)
    requires known { IsPrecision precision }
    requires room { length piece.old + 39 ≤ 256 }
    ensures appended { piece.new ≡ piece.old ++ size_text precision size }
    ensures most { length piece.new ≤ length piece.old + 29 }
{
    if precision < 0 {
        push_tens(precision, size, piece);
    } else {
        push_places(precision as u32, size, piece);
    }
}

// Appends the decimal of a size in units of 10^-`places`: at most 29 characters.
#[inline(always)]
fn push_places(places: u32, size: u64, piece: &mut Piece<256>)
    requires few { places ≤ 7 }
    requires room { length piece.old + 39 ≤ 256 }
    ensures appended { piece.new ≡ piece.old ++ size_text (pos places) size }
    ensures most { length piece.new ≤ length piece.old + 29 }
{
    let scale = ten_to(places);
    let (whole, fraction) = split(size, scale);
    push_whole(whole, piece);
    push_fraction(fraction * ten_to(8 - places), piece);
}

// Appends the decimal of a size in units of 10^-`precision`, which is negative: the size, and a
// zero for each place. Out of line: few coordinates need it.
#[inline(never)]
fn push_tens(precision: i8, size: u64, piece: &mut Piece<256>)
    requires known { IsPrecision precision }
    requires negative { precision ≤ℤ negsuc 0 }
    requires room { length piece.old + 39 ≤ 256 }
    ensures appended { piece.new ≡ piece.old ++ size_text precision size }
    ensures most { length piece.new ≤ length piece.old + 29 }
{
    push_long(size, piece);
    if size != 0 {
        piece.push_low(ZEROS, u32::from(precision.unsigned_abs()));
    }
}

// Ten to a power of at most eight.
#[inline(always)]
pub(crate) fn ten_to(power: u32) -> u32
    requires { power ≤ 8 }
    ensures { result ≡ 10 ^ power }
{
    TENS[power as usize]
}

// The quotient and the remainder of two numbers. A division of 32 bits is quicker than one of 64.
#[inline(always)]
pub(crate) fn split(number: u64, by: u32) -> (u64, u32)
    requires { 0 < by }
    ensures whole { result.0 ≡ number / by }
    ensures rest { result.1 ≡ number % by }
{
    if number < 0x1_0000_0000 {
        let number = number as u32;
        return (u64::from(number / by), number % by);
    }
    let by = u64::from(by);
    (number / by, (number % by) as u32)
}

// Appends the decimal of a number: at most 20 characters. The piece must have room for 28.
#[inline(always)]
fn push_whole(number: u64, piece: &mut Piece<256>)
    requires room { length piece.old + 28 ≤ 256 }
    ensures appended { piece.new ≡ piece.old ++ decimal number }
    ensures most { length piece.new ≤ length piece.old + 20 }
{
    if number < 10 {
        piece.push(b'0' + number as u8);
    } else if number < 1000 {
        push_short(number as u32, piece);
    } else {
        push_long(number, piece);
    }
}

// Appends the decimal of a number from 10 to 999. The piece must have room for 8.
#[inline(always)]
fn push_short(number: u32, piece: &mut Piece<256>)
    requires least { 10 ≤ number }
    requires most { number < 1000 }
    requires room { length piece.old + 8 ≤ 256 }
    ensures appended { piece.new ≡ piece.old ++ decimal number }
    ensures most { length piece.new ≤ length piece.old + 3 }
{
    if number < 100 {
        piece.push_low(two_digits(number) + ZEROS, 2);
    } else {
        let word = u64::from(number / 100) + two_digits(number % 100) * 0x100;
        piece.push_low(word + ZEROS, 3);
    }
}

// Appends the decimal of any number: at most 20 characters. Out of line: few numbers need it.
#[inline(never)]
fn push_long(number: u64, piece: &mut Piece<256>)
    requires room { length piece.old + 20 ≤ 256 }
    ensures appended { piece.new ≡ piece.old ++ decimal number }
    ensures most { length piece.new ≤ length piece.old + 20 }
{
    let mut buffer = Buffer::new();
    piece.push_all(buffer.format(number).as_bytes());
}

// Appends a point and the digits of a fraction in parts of 10^-8, or nothing if it is 0: at most 9
// characters. The piece must have room for those.
#[inline(always)]
pub(crate) fn push_fraction(fraction: u32, piece: &mut Piece<256>)
    requires below { fraction < 100000000 }
    requires room { length piece.old + 9 ≤ 256 }
    ensures appended { piece.new ≡ piece.old ++ fraction_text fraction }
    ensures most { length piece.new ≤ length piece.old + 9 }
{
    if fraction != 0 {
        piece.push(b'.');
        let digits = eight_digits(fraction);
        piece.push_low(digits + ZEROS, byte_count(digits));
    }
}

// The number of bytes of a word up to its last that is not 0, counted from the lowest.
#[inline(always)]
pub(crate) fn byte_count(word: u64) -> u32
    requires { 0 < word }
    ensures counted { IsByteCount result word }
    ensures few { result ≤ 8 }
{
    (71 - word.leading_zeros()) / 8
}

// Powers of ten, indexed by their exponents.
static TENS: [u32; 9] = [
    1,
    10,
    100,
    1_000,
    10_000,
    100_000,
    1_000_000,
    10_000_000,
    100_000_000,
];
