//! Where JSON texts and their parts end, by brackets and quotes alone.
ghost use Rattle.std.specs.Prelude.{◌≡◌, ◌<◌, ◌≤◌, false, length, take, unwrap_or};
ghost use Rattle.twkb_features.specs.Nesting.{step, closes_to, is_outside, nesting_after, FindsClose};
ghost use Rattle.twkb_features.specs.Taken.{Takes, PassesBlock};

use crate::brackets::{BLOCK, count_brackets, is_closing, is_opening};
use crate::runs::plain_run;

/// Whether a byte of a JSON text is in a string, and how the next byte counts there.
#[derive(Clone, Copy, Debug, PartialEq, Eq)]
pub enum Place {
    /// Outside strings.
    Outside,
    /// In a string.
    InString,
    /// In a string, after a backslash.
    Escaped,
}

/// How deep the arrays and objects of a JSON text are nested after some of its bytes.
#[derive(Clone, Copy, Debug, PartialEq, Eq)]
pub struct Nesting {
    /// The number of brackets that are open; stays at 2^64 - 1 and at 0.
    pub depth: u64,
    /// The place of the next byte.
    pub place: Place,
}

// A number of bytes that are taken in, and whether the last closes at the depth that is looked for.
#[derive(Clone, Copy)]
struct Few {
    count: usize,
    is_closed: bool,
}

// How many bytes are taken in one by one, run by run, before blocks are tried again.
const FEW: usize = 16;

impl Nesting {
    /// Before the first byte of a text.
    pub const START: Nesting = Nesting {
        depth: 0,
        place: Place::Outside,
    };

    /// The number of bytes up to the first bracket outside strings that closes an array or an object
    /// at this depth, with that bracket, or `None` if there is none. A text that begins with a
    /// bracket ends with the one at depth 0. Takes in those bytes, or all. Takes no memory.
    pub fn find_close(&mut self, depth: u64, bytes: &[u8]) -> Option<usize>
        ensures first { FindsClose self.old depth bytes.now result }
        ensures taken { self.new
            ≡ nesting_after self.old (take (unwrap_or result (length bytes.now)) bytes.now) }
    {
        let mut at = 0;
        while at < bytes.len() {
            let skipped = self.take_blocks(depth, &bytes[at..]);
            at += skipped;
            let few = self.take_few(depth, &bytes[at..]);
            at += few.count;
            if few.is_closed {
                return Some(at);
            }
        }
        None
    }

    // Takes in blocks as long as each has no bracket that closes at this depth, as far as their
    // numbers of brackets show that. Returns the number of bytes.
    #[inline(always)]
    fn take_blocks(&mut self, depth: u64, bytes: &[u8]) -> usize
        ensures { Takes self.old depth bytes.now result false self.new }
    {
        let mut at = 0;
        while bytes.len() - at >= BLOCK {
            let is_taken = self.take_block(depth, &bytes[at..]);
            if !is_taken {
                return at;
            }
            at += BLOCK;
        }
        at
    }

    // Takes in the first 32 bytes, of which there must be as many, if they are outside strings,
    // have no quote, and have too few closing brackets for one at this depth. Returns whether it
    // did.
    #[inline(always)]
    fn take_block(&mut self, depth: u64, bytes: &[u8]) -> bool
        requires whole { 32 ≤ length bytes.now }
        ensures { PassesBlock self.old depth bytes.now result self.new }
    {
        if !self.is_outside() {
            return false;
        }
        let counts = count_brackets(&bytes[..BLOCK]);
        let closes = u64::from(counts.closes);
        if counts.quotes != 0 || self.depth > MOST_DEPTH || self.depth <= closes {
            return false;
        }
        if self.depth - closes <= depth {
            return false;
        }
        self.depth = self.depth - closes + u64::from(counts.opens);
        true
    }

    // The next byte is outside strings.
    #[inline(always)]
    fn is_outside(&self) -> bool
        ensures { result ≡ is_outside self.now.place }
    {
        matches!(self.place, Place::Outside)
    }

    // Takes in at least one byte if there is one, up to the first bracket that closes at this
    // depth, a few, or all, each run of plain bytes at once.
    #[inline(always)]
    fn take_few(&mut self, depth: u64, bytes: &[u8]) -> Few
        ensures taken { Takes self.old depth bytes.now result.count result.is_closed self.new }
        ensures some { 0 < length bytes.now → 0 < result.count }
    {
        let mut at = 0;
        while at < bytes.len() && at < FEW {
            let plain = plain_run(self.place, &bytes[at..]);
            at += plain;
            if at == bytes.len() {
                return Few {
                    count: at,
                    is_closed: false,
                };
            }
            let is_closed = self.take_byte(depth, bytes[at]);
            at += 1;
            if is_closed {
                return Few {
                    count: at,
                    is_closed: true,
                };
            }
        }
        Few {
            count: at,
            is_closed: false,
        }
    }

    // Takes in one byte. Returns whether it closes an array or an object at this depth.
    #[inline(always)]
    fn take_byte(&mut self, depth: u64, byte: u8) -> bool
        ensures taken { self.new ≡ step self.old byte }
        ensures closed { result ≡ closes_to self.old depth byte }
    {
        match self.place {
            Place::Outside => self.take_outside(depth, byte),
            Place::InString => self.take_in_string(byte),
            Place::Escaped => {
                self.place = Place::InString;
                false
            }
        }
    }

    // Takes in a byte outside strings. Returns whether it closes an array or an object at this
    // depth.
    #[inline(always)]
    fn take_outside(&mut self, depth: u64, byte: u8) -> bool
        requires { self.old.place ≡ Place.Outside }
        ensures taken { self.new ≡ step self.old byte }
        ensures closed { result ≡ closes_to self.old depth byte }
    {
        if byte == b'"' {
            self.place = Place::InString;
        } else if is_opening(byte) {
            self.depth = self.depth.saturating_add(1);
        } else if is_closing(byte) {
            self.depth = self.depth.saturating_sub(1);
            return self.depth == depth;
        }
        false
    }

    // Takes in a byte of a string. Returns false.
    #[inline(always)]
    fn take_in_string(&mut self, byte: u8) -> bool
        requires { self.old.place ≡ Place.InString }
        ensures taken { self.new ≡ step self.old byte }
        ensures closed { result ≡ closes_to self.old 0 byte }
    {
        if byte == b'"' {
            self.place = Place::Outside;
        } else if byte == b'\\' {
            self.place = Place::Escaped;
        }
        false
    }
}

// The greatest depth after which no block reaches 2^64.
const MOST_DEPTH: u64 = u64::MAX - BLOCK as u64;
