//! A writer into a slice.
ghost use Rattle.std.specs.Prelude.{◌≡◌, ◌≤◌, ◌+◌, ◌++◌, ◌⊎◌, length, take, drop, false, is_err, IfOk};
ghost use Rattle.std.specs.Io.{WritesAtMost};
ghost use Rattle.std.specs.Io.KnownBytes.{Keeps, WriteAppends};

use std::io;
use std::io::Write;

// Fills a slice from its start, and takes no more bytes than fit.
#[derive(Drop)]
pub(crate) struct Filler<'a> {
    buffer: &'a mut [u8],
    filled: usize,
    ghost within: { filled ≤ length buffer.now },
}

impl<'a> Filler<'a> {
    ghost use Rattle.twkb_buffer.specs.Slices.{buffer_of, filled_of};

    // Makes a writer into a slice, of which it has filled nothing.
    pub(crate) fn new(buffer: &'a mut [u8]) -> Filler<'a>
        ensures same_buffer { (buffer_of result).ghost_name ≡ buffer.entry.ghost_name }
        ensures untouched { (buffer_of result).now ≡ buffer.old }
        ensures filled { filled_of result ≡ 0 }
    {
        Filler { buffer, filled: 0 }
    }
}

// Copies bytes into a slice from the place `start` on, as many as fit, and returns their number.
// `start` must be at most the slice's length.
fn copy_at(start: usize, from: &[u8], to: &mut [u8]) -> usize
    requires { start ≤ length to.old }
    ensures given { result ≤ length from.now }
    ensures fits { start + result ≤ length to.old }
    ensures most { (result ≡ length from.now) ⊎ (start + result ≡ length to.old) }
    ensures copied { to.new ≡ take start to.old ++ (take result from.now ++ drop (start + result) to.old) }
{
    let count = from.len().min(to.len() - start);
    to[start..start + count].copy_from_slice(&from[..count]);
    count
}

impl Write for Filler<'_> {
    ghost use Rattle.twkb_buffer.specs.Slices.{buffer_of, filled_of, held};

    ghost contents = { λ filler. held filler };

    fn write(&mut self, buf: &[u8]) -> io::Result<usize>
        ensures bound { WritesAtMost result buf.now }
        ensures bytes { WriteAppends (held self.old) (held self.new) result buf.now }
        ensures passes { is_err result ≡ false }
        ensures most { IfOk result (λ count. (count ≡ length buf.now)
            ⊎ (filled_of self.new ≡ length (buffer_of self.new).now)) }
    {
        let count = copy_at(self.filled, buf, self.buffer);
        self.filled += count;
        Ok(count)
    }

    fn flush(&mut self) -> io::Result<()>
        ensures bytes { Keeps (held self.old) (held self.new) }
        ensures passes { is_err result ≡ false }
    {
        Ok(())
    }
}
