//! Decimal digits of small numbers as the bytes of a word, the highest digit in the lowest byte.
ghost use Rattle.std.specs.Prelude.{◌≡◌, ◌<◌, ◌*◌, ◌^◌};
ghost use Rattle.twkb_geojson.specs.Coordinate.{digit_word};

use crate::tables::three_digits;

// The two digits of a number below 100.
#[inline(always)]
pub(crate) fn two_digits(number: u32) -> u64
    requires { number < 100 }
    ensures { result ≡ digit_word 2 number }
{
    PAIRS[number as usize]
}

// The eight digits of a number below 10^8.
#[inline(always)]
pub(crate) fn eight_digits(number: u32) -> u64
    requires { number < 100000000 }
    ensures { result ≡ digit_word 8 number }
{
    four_digits(number / 10_000) + four_digits(number % 10_000) * 0x1_0000_0000
}

// The six digits of a number below 10^6, and two zeros.
#[inline(always)]
pub(crate) fn six_digits(number: u32) -> u64
    requires { number < 1000000 }
    ensures { result ≡ digit_word 8 (number * 100) }
{
    let high = number / 1000;
    let low = number - high * 1000;
    three_digits(high) + three_digits(low) * 0x100_0000
}

// The four digits of a number below 10^4.
#[inline(always)]
fn four_digits(number: u32) -> u64
    requires { number < 10000 }
    ensures digits { result ≡ digit_word 4 number }
    ensures fits { result < 2 ^ 32 }
{
    two_digits(number / 100) + two_digits(number % 100) * 0x1_0000
}

// Indexed by a number below 100: its tens, and 256 times its ones.
#[rattlefmt::skip]
static PAIRS: [u64; 100] = [
    0x0000, 0x0100, 0x0200, 0x0300, 0x0400, 0x0500, 0x0600, 0x0700, 0x0800, 0x0900,
    0x0001, 0x0101, 0x0201, 0x0301, 0x0401, 0x0501, 0x0601, 0x0701, 0x0801, 0x0901,
    0x0002, 0x0102, 0x0202, 0x0302, 0x0402, 0x0502, 0x0602, 0x0702, 0x0802, 0x0902,
    0x0003, 0x0103, 0x0203, 0x0303, 0x0403, 0x0503, 0x0603, 0x0703, 0x0803, 0x0903,
    0x0004, 0x0104, 0x0204, 0x0304, 0x0404, 0x0504, 0x0604, 0x0704, 0x0804, 0x0904,
    0x0005, 0x0105, 0x0205, 0x0305, 0x0405, 0x0505, 0x0605, 0x0705, 0x0805, 0x0905,
    0x0006, 0x0106, 0x0206, 0x0306, 0x0406, 0x0506, 0x0606, 0x0706, 0x0806, 0x0906,
    0x0007, 0x0107, 0x0207, 0x0307, 0x0407, 0x0507, 0x0607, 0x0707, 0x0807, 0x0907,
    0x0008, 0x0108, 0x0208, 0x0308, 0x0408, 0x0508, 0x0608, 0x0708, 0x0808, 0x0908,
    0x0009, 0x0109, 0x0209, 0x0309, 0x0409, 0x0509, 0x0609, 0x0709, 0x0809, 0x0909,
];
