//! A reader that is not read again once it has reported its end.
ghost use Rattle.std.specs.Prelude.{◌≡◌, true, false, IfSome, [], Ok};
ghost use Rattle.std.specs.Io.{ReadsAtMost};
ghost use Rattle.std.specs.Io.KnownBytes.{IsAtEnd, ReadConsumes};
ghost use Rattle.std.proofs.Props.{props};

use std::io;
use std::io::Read;

/// A reader that remembers its end, as a terminal's reader must: once a read into a buffer with
/// room gives no byte, every later read gives none, and the reader underneath is not called
/// again. Takes no memory itself.
#[derive(Drop)]
pub struct Ending<R: Read> {
    reader: R,
    ended: bool,
    ghost at_end: { ended ≡ true → IfSome (R.remaining reader) (λ left. left ≡ []) } by { Prim.hlevel props },
}

impl<R: Read> Ending<R> {
    ghost use Rattle.twkb_io.specs.Taps.{has_ended, under};

    /// Wraps a reader whose end was not seen yet. Reads nothing, and takes no memory.
    pub fn new(reader: R) -> Ending<R>
        ensures reader { under result ≡ reader }
        ensures not_ended { has_ended result ≡ false }
    {
        Ending {
            reader,
            ended: false,
        }
    }

    /// Whether the end was seen: a read into a buffer with room gave no byte. Takes no memory.
    pub fn has_ended(&self) -> bool
        ensures ended { result ≡ has_ended self.now }
        ensures at_end { result ≡ true → IsAtEnd (R.remaining (under self.now)) }
    {
        self.ended
    }

    /// Returns the reader underneath, as the reads left it. Takes no memory.
    pub fn into_inner(self) -> R
        ensures { result ≡ under self }
    {
        self.reader
    }
}

impl<R: Read> Read for Ending<R> {
    ghost use Rattle.twkb_io.specs.Taps.{Ends, has_ended, under};

    ghost remaining = { λ ending. R.remaining (under ending) };

    fn read(&mut self, buf: &mut [u8]) -> io::Result<usize>
        ensures bound { ReadsAtMost result buf.new }
        ensures bytes { ReadConsumes (R.remaining (under self.old)) (R.remaining (under self.new)) result buf.new }
        ensures ended { has_ended self.old ≡ true → (result ≡ Ok 0) × (self.new ≡ self.old) }
        ensures ends { Ends (has_ended self.old) result buf.new (has_ended self.new) }
    {
        if self.ended {
            return Ok(0);
        }
        let has_room = !buf.is_empty();
        let count = self.reader.read(buf)?;
        self.ended = has_room & (count == 0);
        Ok(count)
    }
}
