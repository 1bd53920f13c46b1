//! A sink that keeps its bytes in memory.
ghost use Rattle.std.specs.Prelude.{◌≡◌, ◌++◌, [], length, OnOk, OnErr, IfErr};
ghost use Rattle.twkb_io.specs.Sinks.{TookFront};

use crate::sink::Sink;
use std::alloc::{AllocError, Global};

/// A sink that keeps its bytes in a vector. A put takes memory; if that is refused, no byte of the
/// put is taken.
#[derive(Drop)]
pub struct Bytes {
    kept: Vec<u8>,
}

impl Bytes {
    ghost use Rattle.twkb_io.specs.Bytes.{bytes_of};

    /// Makes a sink that holds no byte. Takes no memory.
    pub fn new(alloc: Global) -> Bytes
        ensures { bytes_of result ≡ [] }
    {
        Bytes {
            kept: Vec::new(alloc),
        }
    }

    /// Drops all bytes, and keeps their memory for later puts. Takes no memory.
    pub fn clear(&mut self)
        ensures { bytes_of self.new ≡ [] }
    {
        self.kept.clear();
    }

    /// The bytes of all accepted puts since the last `clear`, in order. Takes no memory.
    pub fn as_slice(&self) -> &[u8]
        ensures { result.now ≡ bytes_of self.now }
    {
        &self.kept
    }

    /// The bytes of all accepted puts since the last `clear`, in order, as the sink's own vector.
    /// Takes no memory.
    pub fn into_vec(self) -> Vec<u8>
        ensures { result.items ≡ bytes_of self }
    {
        self.kept
    }
}

impl Sink for Bytes {
    ghost use Rattle.twkb_io.specs.Bytes.{bytes_of};
    ghost use Rattle.twkb_io.specs.Sinks.{lengths_within, lists_join};
    ghost use Rattle.std.proofs.Common.{sym, ap, ◌∙◌, length-append};
    ghost use Rattle.std.proofs.lemmas.List.{append-nil};

    type Fault = AllocError;

    ghost took = { λ a xs b. bytes_of b ≡ bytes_of a ++ xs };

    ghost refused = { λ a xs fault b. bytes_of b ≡ bytes_of a ++ xs };

    ghost taken = { λ s. length (bytes_of s) };

    ghost takes_nothing = { λ s. sym (append-nil (bytes_of s)) };

    ghost takes_join = { λ a b c xs ys first second. lists_join (bytes_of a) (bytes_of b)
        (bytes_of c) xs ys first second };

    ghost refuses_join = { λ a b c xs ys fault first second. lists_join (bytes_of a) (bytes_of b)
        (bytes_of c) xs ys first second };

    ghost adds_up = { λ a b xs took. ap length took ∙ length-append (bytes_of a) xs };

    ghost adds_no_more = { λ a b xs fault refused. lengths_within (length (bytes_of a))
        (length (bytes_of b)) xs (ap length refused ∙ length-append (bytes_of a) xs) };

    fn put(&mut self, bytes: &[u8]) -> Result<(), AllocError>
        ensures ok { OnOk result (bytes_of self.new ≡ bytes_of self.old ++ bytes.now) }
        ensures err { IfErr result (λ fault. TookFront (λ a xs _ b. bytes_of b ≡ bytes_of a ++ xs)
            self.old bytes.now fault self.new) }
        ensures unchanged { OnErr result (bytes_of self.new ≡ bytes_of self.old) }
    {
        self.kept.extend_from_slice(bytes)
    }
}
