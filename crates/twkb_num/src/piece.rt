//! A small buffer on the stack, for bytes on their way to a text.
ghost use Rattle.std.specs.Prelude.{◌≡◌, ◌↔◌, ◌≤◌, ◌<◌, ◌+◌, ◌^◌, ◌++◌, [], ◌∷◌, IsTrue, length, take};
ghost use Rattle.twkb_num.specs.Alphabet.{five_unit};
ghost use Rattle.twkb_num.specs.Spelling.{low_digits, shortest};
ghost use Rattle.twkb_num.specs.Varint.{varint_of};

use crate::four_out::{as_characters, as_varints};
use std::marker::Model;
use std::simd::u8x8;

// The number of bytes in a word.
const WORD: usize = 8;

/// Gathers up to `ROOM` bytes on the stack, so that no push needs a test for memory. A contract
/// sees the bytes that it holds.
#[derive(Drop)]
pub struct Piece<const ROOM: usize> {
    pub(crate) bytes: [u8; ROOM],
    pub(crate) len: usize,
}

impl<const ROOM: usize> Model for Piece<ROOM> {
    ghost use Rattle.std.specs.Prelude.{ℕ, ◌≤◌, List, take};

    ghost Value = { List ℕ };

    ghost view = { λ p. take p.len p.bytes };

    ghost invariant = { λ p. p.len ≤ ROOM };
}

impl<const ROOM: usize> Piece<ROOM> {
    /// Makes an empty piece. Takes no memory.
    #[inline(always)]
    pub fn new() -> Self
        ensures { result ≡ [] }
    {
        Piece {
            bytes: [0; ROOM],
            len: 0,
        }
    }

    /// The bytes held. Takes no memory.
    #[inline(always)]
    pub fn as_slice(&self) -> &[u8]
        ensures { result.now ≡ self.now }
    {
        &self.bytes[..self.len]
    }

    /// Drops the bytes held. Takes no memory.
    #[inline(always)]
    pub fn clear(&mut self)
        ensures { self.new ≡ [] }
    {
        self.len = 0;
    }

    /// Whether there is room for `count` more bytes; `count` must be at most `ROOM`. Takes no
    /// memory.
    #[inline(always)]
    pub fn has_room(&self, count: usize) -> bool
        requires { count ≤ ROOM }
        ensures { IsTrue result ↔ (length self.now + count ≤ ROOM) }
    {
        self.len <= ROOM - count
    }

    /// Appends a byte, for which there must be room. Takes no memory.
    #[inline(always)]
    pub fn push(&mut self, byte: u8)
        requires { length self.old < ROOM }
        ensures { self.new ≡ self.old ++ byte ∷ [] }
    {
        let at = self.len;
        self.bytes[at] = byte;
        self.len = at + 1;
    }

    /// Appends the low `count` bytes of a word, at most eight, the lowest first. The piece must
    /// have room for eight: one store writes all of them, and those past `count` are not counted.
    /// Takes no memory.
    #[inline(always)]
    pub fn push_low(&mut self, word: u64, count: u32)
        requires few { count ≤ 8 }
        requires room { length self.old + 8 ≤ ROOM }
        ensures { self.new ≡ self.old ++ low_digits 256 count word }
    {
        self.push_eight(u8x8::from_array(word.to_le_bytes()), count);
    }

    // Appends the first `count` of eight bytes. The piece must have room for eight: one vector
    // store writes all of them, and those past `count` are not counted. A slice copy would first
    // test whether the places overlap.
    #[inline(always)]
    fn push_eight(&mut self, bytes: u8x8, count: u32)
        requires few { count ≤ 8 }
        requires room { length self.old + 8 ≤ ROOM }
        ensures { self.new ≡ self.old ++ take count bytes }
    {
        let at = self.len;
        let places = &mut self.bytes[..];
        bytes.copy_to_slice(&mut places[at..at + WORD]);
        self.len = at + count as usize;
    }

    // Appends the shortest varints of four numbers, each below 2^28, with no branch on their
    // lengths. The piece must have room for sixteen bytes: two stores write eight each, and those
    // past the varints are not counted.
    #[inline(always)]
    pub(crate) fn push_varints(&mut self, first: u32, second: u32, third: u32, fourth: u32)
        requires first_small { first < 2 ^ 28 }
        requires second_small { second < 2 ^ 28 }
        requires third_small { third < 2 ^ 28 }
        requires fourth_small { fourth < 2 ^ 28 }
        requires room { length self.old + 16 ≤ ROOM }
        ensures appended { self.new ≡ self.old ++ ((varint_of first ++ varint_of second)
            ++ (varint_of third ++ varint_of fourth)) }
        ensures most { length self.new ≤ length self.old + 16 }
    {
        let four = as_varints(first, second, third, fourth);
        self.push_eight(four.units.extract::<0, 8>(), four.low);
        self.push_eight(four.units.extract::<8, 8>(), four.high);
    }

    // Appends the shortest varints of two numbers, each below 2^28, with no branch on their
    // lengths. The piece must have room for eight bytes: one store writes eight, and those past the
    // varints are not counted.
    #[inline(always)]
    pub(crate) fn push_pair(&mut self, first: u32, second: u32)
        requires first_small { first < 2 ^ 28 }
        requires second_small { second < 2 ^ 28 }
        requires room { length self.old + 8 ≤ ROOM }
        ensures { self.new ≡ self.old ++ (varint_of first ++ varint_of second) }
    {
        let four = as_varints(first, second, 0, 0);
        self.push_eight(four.units.extract::<0, 8>(), four.low);
    }

    /// Appends the shortest spellings of four numbers, each below 2^20, in characters, with no
    /// branch on their lengths (Encoded Polyline Algorithm Format). The piece must have room for
    /// sixteen bytes: two stores write eight each, and those past the characters are not counted.
    /// Takes no memory.
    #[inline(always)]
    pub fn push_four_characters(&mut self, first: u32, second: u32, third: u32, fourth: u32)
        requires first_small { first < 2 ^ 20 }
        requires second_small { second < 2 ^ 20 }
        requires third_small { third < 2 ^ 20 }
        requires fourth_small { fourth < 2 ^ 20 }
        requires room { length self.old + 16 ≤ ROOM }
        ensures appended { self.new ≡ self.old
            ++ ((shortest five_unit 32 first ++ shortest five_unit 32 second)
            ++ (shortest five_unit 32 third ++ shortest five_unit 32 fourth)) }
        ensures most { length self.new ≤ length self.old + 16 }
    {
        let four = as_characters(first, second, third, fourth);
        self.push_eight(four.units.extract::<0, 8>(), four.low);
        self.push_eight(four.units.extract::<8, 8>(), four.high);
    }

    /// Appends the first `count` bytes of an array. The piece must have room for all `N`: stores of
    /// a fixed size write them, and those past `count` are not counted. Takes no memory.
    #[inline(always)]
    pub fn push_prefix<const N: usize>(&mut self, bytes: &[u8; N], count: usize)
        requires few { count ≤ N }
        requires room { length self.old + N ≤ ROOM }
        ensures { self.new ≡ self.old ++ take count bytes.now }
    {
        let at = self.len;
        let places = &mut self.bytes[..];
        places[at..at + N].copy_from_slice(bytes);
        self.len = at + count;
    }

    /// Appends all bytes of a slice, for which there must be room. Takes no memory.
    #[inline(always)]
    pub fn push_all(&mut self, bytes: &[u8])
        requires { length self.old + length bytes.now ≤ ROOM }
        ensures { self.new ≡ self.old ++ bytes.now }
    {
        let at = self.len;
        let places = &mut self.bytes[..];
        places[at..at + bytes.len()].copy_from_slice(bytes);
        self.len = at + bytes.len();
    }
}
