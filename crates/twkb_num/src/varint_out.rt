//! Varints appended to a piece.
ghost use Rattle.std.specs.Prelude.{◌≡◌, ◌≤◌, ◌<◌, ◌+◌, ◌%◌, ◌++◌, ◌^◌, length, if◌then◌else◌, nat_lt};
ghost use Rattle.twkb_num.specs.Varint.{varint_of};

use crate::alphabet::GOES_ON;
use crate::piece::Piece;
use crate::varint::{FIVE_BYTES, THREE_BYTES, TWO_BYTES};
use std::simd::u64x2;

// The number of bytes, 1 or 2, in the shortest varint of a number below 2^14.
#[tactic(auto, using(crate::proofs::VarintLemmas::varint_lengths))]
fn short_len(number: u64) -> usize
    requires { number < 2 ^ 14 }
    ensures value { result ≡ length (varint_of number) }
    ensures most { result ≤ 2 }
{
    if number < TWO_BYTES { 1 } else { 2 }
}

// The first byte of the shortest varint of a number.
fn lead_byte(number: u64) -> u8
    ensures { result ≡ (if nat_lt number 128 then number else number % 128 + 128) }
{
    if number < TWO_BYTES {
        number as u8
    } else {
        (number % TWO_BYTES) as u8 + GOES_ON
    }
}

impl<const ROOM: usize> Piece<ROOM> {
    // Appends the shortest varint of a number below 2^14. The piece must have room for two bytes:
    // both are written, and the second is not counted if the varint has one.
    #[inline(always)]
    fn push_short(&mut self, number: u64)
        requires small { number < 2 ^ 14 }
        requires room { length self.old + 2 ≤ ROOM }
        ensures { self.new ≡ self.old ++ varint_of number }
    {
        let at = self.len;
        self.bytes[at] = lead_byte(number);
        self.bytes[at + 1] = (number / TWO_BYTES) as u8;
        self.len = at + short_len(number);
    }

    // Appends the shortest varint of a number from 2^14 to 2^28 - 1, three or four bytes. The piece
    // must have room for four.
    #[inline(never)]
    fn push_middle(&mut self, number: u64)
        requires more { 2 ^ 14 ≤ number }
        requires small { number < 2 ^ 28 }
        requires room { length self.old + 4 ≤ ROOM }
        ensures { self.new ≡ self.old ++ varint_of number }
    {
        let high = number / TWO_BYTES;
        self.push(lead_byte(number));
        self.push(lead_byte(high));
        self.push_short(high / TWO_BYTES);
    }

    // Appends the shortest varint of any number, byte by byte. The piece must have room for ten
    // bytes.
    #[inline(never)]
    fn push_long(&mut self, number: u64)
        requires { length self.old + 10 ≤ ROOM }
        ensures { self.new ≡ self.old ++ varint_of number }
    {
        let mut rest = number;
        while rest >= TWO_BYTES {
            self.push(lead_byte(rest));
            rest /= TWO_BYTES;
        }
        self.push(rest as u8);
    }

    /// Appends the shortest varint of a number, at most ten bytes (TWKB specification; LEB128). The
    /// piece must have room for ten, however short the varint is. Takes no memory.
    #[inline(always)]
    pub fn push_varint(&mut self, number: u64)
        requires { length self.old + 10 ≤ ROOM }
        ensures value { self.new ≡ self.old ++ varint_of number }
        ensures most { length self.new ≤ length self.old + 10 }
    {
        if number < THREE_BYTES {
            self.push_short(number);
        } else if number < FIVE_BYTES {
            self.push_middle(number);
        } else {
            self.push_long(number);
        }
    }

    /// Appends the shortest varints of two numbers (TWKB specification; LEB128), with no branch on
    /// their lengths if both have at most four bytes. The piece must have room for twenty bytes.
    /// Takes no memory.
    #[inline(always)]
    #[tactic(auto, using(std::proofs::lemmas::Nat::le_or_l, std::proofs::lemmas::Nat::le_or_r))]
    pub fn push_two_varints(&mut self, first: u64, second: u64)
        requires { length self.old + 20 ≤ ROOM }
        ensures { self.new ≡ self.old ++ (varint_of first ++ varint_of second) }
    {
        if first | second < FIVE_BYTES {
            self.push_pair(first as u32, second as u32);
            return;
        }
        self.push_varint(first);
        self.push_varint(second);
    }

    /// Appends the shortest varints of four numbers (TWKB specification; LEB128). If all have at
    /// most four bytes, as in nearly all tracks, there is no branch on their lengths. The piece
    /// must have room for forty bytes. Takes no memory.
    #[inline(always)]
    #[tactic(auto, using(std::proofs::lemmas::Nat::le_or_l, std::proofs::lemmas::Nat::le_or_r))]
    pub fn push_four_varints(&mut self, first: u64, second: u64, third: u64, fourth: u64)
        requires { length self.old + 40 ≤ ROOM }
        ensures { self.new ≡ self.old ++ ((varint_of first ++ varint_of second)
            ++ (varint_of third ++ varint_of fourth)) }
    {
        let either = u64x2::from_array([first, second]) | u64x2::from_array([third, fourth]);
        let [low, high] = either.to_array();
        if low | high < FIVE_BYTES {
            self.push_varints(first as u32, second as u32, third as u32, fourth as u32);
            return;
        }
        self.push_varint(first);
        self.push_varint(second);
        self.push_varint(third);
        self.push_varint(fourth);
    }
}
