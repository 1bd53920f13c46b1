//! The first bytes of a text as words of memory.
ghost use Rattle.std.specs.Prelude.{◌≡◌, ◌≤◌, length, take};
ghost use lib.Lanes.{number_l};

use std::simd::{u8x4, u8x8, u32x1, u64x1};

/// The first four bytes as a number, the lowest byte first. There must be at least four. Takes no
/// memory.
#[inline(always)]
pub fn four_bytes(bytes: &[u8]) -> u32
    requires { 4 ≤ length bytes.now }
    ensures { result ≡ number_l 256 (take 4 bytes.now) }
{
    let [number] = u32x1::from_le_bytes(u8x4::from_slice(bytes)).to_array();
    number
}

/// The first eight bytes as a number, the lowest byte first. There must be at least eight. Takes no
/// memory.
#[inline(always)]
pub fn eight_bytes(bytes: &[u8]) -> u64
    requires { 8 ≤ length bytes.now }
    ensures { result ≡ number_l 256 (take 8 bytes.now) }
{
    let [number] = u64x1::from_le_bytes(u8x8::from_slice(bytes)).to_array();
    number
}
