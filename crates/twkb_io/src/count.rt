//! A sink that counts bytes.
ghost use Rattle.std.specs.Prelude.{◌≡◌, ◌+◌, ◌≤◌, ◌<◌, ◌↔◌, length, OnOk, OnErr, IfErr, IsErr};
ghost use Rattle.twkb_io.specs.declared.TheConstants.{MAX_BYTES};
ghost use Rattle.twkb_io.specs.Sinks.{TookFront};

use crate::MAX_BYTES;
use crate::sink::Sink;
use thiserror::Error;

/// A sink that keeps only the number of bytes it took, at most 2^62. A put that would pass this
/// bound is refused, and none of its bytes is counted. Takes no memory.
#[derive(Clone, Copy, Debug)]
pub struct Count {
    total: u64,
    ghost within: { total ≤ MAX_BYTES },
}

/// A put would take the count past 2^62 bytes.
#[derive(Clone, Copy, PartialEq, Eq, Debug, Error)]
#[error("too many bytes to count")]
pub struct CountFull;

impl Count {
    ghost use Rattle.twkb_io.specs.Bytes.{total_of};

    /// Makes a count at 0. Takes no memory.
    pub fn new() -> Count
        ensures { total_of result ≡ 0 }
    {
        Count { total: 0 }
    }

    /// The number of bytes taken, at most 2^62. Takes no memory.
    pub fn total(&self) -> u64
        ensures total { result ≡ total_of self.now }
        ensures within { result ≤ MAX_BYTES }
    {
        self.total
    }
}

impl Sink for Count {
    ghost use Rattle.twkb_io.specs.Bytes.{total_of};
    ghost use Rattle.twkb_io.specs.Sinks.{lengths_join, lengths_within};
    ghost use Rattle.std.proofs.Common.{sym, add-zero};

    type Fault = CountFull;

    ghost took = { λ a xs b. total_of b ≡ total_of a + length xs };

    ghost refused = { λ a xs fault b. total_of b ≡ total_of a + length xs };

    ghost taken = { total_of };

    ghost takes_nothing = { λ s. sym (add-zero (total_of s)) };

    ghost takes_join = { λ a b c xs ys first second. lengths_join (total_of a) (total_of b)
        (total_of c) xs ys first second };

    ghost refuses_join = { λ a b c xs ys fault first second. lengths_join (total_of a) (total_of b)
        (total_of c) xs ys first second };

    ghost adds_up = { λ a b xs took. took };

    ghost adds_no_more = { λ a b xs fault refused. lengths_within (total_of a) (total_of b) xs refused };

    fn put(&mut self, bytes: &[u8]) -> Result<(), CountFull>
        ensures ok { OnOk result (total_of self.new ≡ total_of self.old + length bytes.now) }
        ensures err { IfErr result (λ fault. TookFront
            (λ a xs _ b. total_of b ≡ total_of a + length xs) self.old bytes.now fault self.new) }
        ensures full { IsErr result ↔ (MAX_BYTES < total_of self.old + length bytes.now) }
        ensures unchanged { OnErr result (self.new ≡ self.old) }
    {
        let length = bytes.len() as u64;
        if length > MAX_BYTES - self.total {
            return Err(CountFull);
        }
        self.total += length;
        Ok(())
    }
}
