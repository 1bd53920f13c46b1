//! The length of a varint, known before it is written, and the bounds of each length.
ghost use Rattle.std.specs.Prelude.{◌≡◌, ◌≤◌, length};
ghost use Rattle.twkb_num.specs.Varint.{varint_of};

use crate::alphabet::VARINT_BITS;

// The place of the highest bit in a number of 64 bits.
const TOP: u32 = 63;

/// The least number whose shortest varint has two bytes (TWKB specification; LEB128).
pub const TWO_BYTES: u64 = 1 << VARINT_BITS;

/// The least number whose shortest varint has three bytes.
pub const THREE_BYTES: u64 = 1 << (2 * VARINT_BITS);

/// The least number whose shortest varint has four bytes.
pub const FOUR_BYTES: u64 = 1 << (3 * VARINT_BITS);

/// The least number whose shortest varint has five bytes.
pub const FIVE_BYTES: u64 = 1 << (4 * VARINT_BITS);

/// The number of bytes in the shortest varint of a number, 1 to 10 (TWKB specification; LEB128).
/// Takes no memory.
#[inline(always)]
pub fn varint_len(number: u64) -> u32
    ensures value { result ≡ length (varint_of number) }
    ensures some { 1 ≤ result }
    ensures most { result ≤ 10 }
{
    // setting the last bit makes sure that there is a highest one, and changes no length
    let odd = number / 2 * 2 + 1;
    (TOP - odd.leading_zeros()) / VARINT_BITS + 1
}
