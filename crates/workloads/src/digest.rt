//! One number of all that a job gave.

use std::io;
use std::io::Write;

// An odd number with its bits well spread, 2^64 over the golden ratio.
const SPREAD: u64 = 0x9e37_79b9_7f4a_7c15;

// How many bytes are folded at once.
const WORD: usize = 8;

/// The number of what came so far, bytes and whole numbers. The same bytes give the same number in whatever pieces they come.
#[derive(Clone, Copy, Drop)]
pub(crate) struct Digest {
    value: u64,
    /// The bytes of a word that is not whole, the last of them on top.
    pending: u64,
    /// How many these are.
    held: u32,
}

impl Digest {
    /// The number of nothing.
    pub(crate) fn new() -> Digest {
        Digest {
            value: 0,
            pending: 0,
            held: 0,
        }
    }

    /// The number of what came.
    pub(crate) fn value(&self) -> u64 {
        let mut whole = *self;
        whole.fold(self.pending);
        whole.fold(u64::from(self.held));
        whole.value
    }

    /// Takes a number.
    #[inline(always)]
    pub(crate) fn fold(&mut self, word: u64) {
        self.value = (self.value.rotate_left(23) ^ word).wrapping_mul(SPREAD);
    }

    /// Takes a signed number.
    #[inline(always)]
    pub(crate) fn fold_signed(&mut self, number: i64) {
        self.fold(u64::from_le_bytes(number.to_le_bytes()));
    }

    // Takes a byte.
    fn push(&mut self, byte: u8) {
        self.pending = (self.pending >> 8) | (u64::from(byte) << 56);
        self.held = self.held.wrapping_add(1);
        if self.held >= WORD as u32 {
            self.fold(self.pending);
            self.pending = 0;
            self.held = 0;
        }
    }

    /// Takes bytes, eight at a time.
    pub(crate) fn fold_bytes(&mut self, bytes: &[u8]) {
        let mut rest = bytes;
        for _ in 0..WORD {
            if self.held == 0 {
                break;
            }
            let Some((first, others)) = rest.split_first() else {
                return;
            };
            self.push(*first);
            rest = others;
        }
        let (words, last) = rest.as_chunks::<WORD>();
        for word in words {
            self.fold(u64::from_le_bytes(*word));
        }
        for byte in last {
            self.push(*byte);
        }
    }
}

impl Write for Digest {
    fn write(&mut self, buf: &[u8]) -> io::Result<usize> {
        self.fold_bytes(buf);
        Ok(buf.len())
    }

    fn flush(&mut self) -> io::Result<()> {
        Ok(())
    }
}
