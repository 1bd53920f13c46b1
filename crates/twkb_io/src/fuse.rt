//! A device for tests that stops after a number of bytes.
ghost use Rattle.std.specs.Prelude.{◌≡◌, ◌-◌, ◌≤◌, ◌<◌, true, IsErr, IfOk, min};
ghost use Rattle.std.specs.Io.{ReadsAtMost, WritesAtMost};
ghost use Rattle.std.specs.Io.KnownBytes.{Keeps, ReadConsumes, WriteAppends};

use std::io;
use std::io::{ErrorKind, Read, Write};

/// How a fuse answers after its bytes.
#[derive(Clone, Copy, PartialEq, Eq, Debug)]
pub enum FuseEnd {
    /// Each read and each write fails.
    Fail,
    /// Each read and each write returns that it moved no byte.
    Zero,
}

impl FuseEnd {
    ghost use Rattle.twkb_io.specs.Taps.{Dries};

    // The answer to a read or a write after the bytes of a fuse: an error, or that no byte was
    // moved.
    fn answer(self) -> io::Result<usize>
        ensures { Dries self result }
    {
        match self {
            FuseEnd::Fail => Err(ErrorKind::Other.into()),
            FuseEnd::Zero => Ok(0),
        }
    }
}

/// A device for tests: passes the first bytes of another device, a step at a time, and then fails
/// or moves no more bytes. Takes no memory itself.
#[derive(Drop)]
pub struct Fuse<D> {
    device: D,
    left: u64,
    step: usize,
    end: FuseEnd,
    flush_fails: bool,
    ghost moves: { 0 < step },
}

impl<D> Fuse<D> {
    ghost use Rattle.twkb_io.specs.Taps.{end_of, fails_flush, fuse_device, left_of, step_of};

    /// Makes a fuse that passes the first `bytes` bytes of its reads and writes, at most `step` in
    /// one call, and then answers each as `end` says. `step` must not be 0. A flush fails if
    /// `flush_fails` is set; if not, it is passed on. Takes no memory.
    pub fn new(device: D, bytes: u64, step: usize, end: FuseEnd, flush_fails: bool) -> Fuse<D>
        requires { 0 < step }
        ensures device { fuse_device result ≡ device }
        ensures left { left_of result ≡ bytes }
        ensures step { step_of result ≡ step }
        ensures end { end_of result ≡ end }
        ensures flush { fails_flush result ≡ flush_fails }
    {
        Fuse {
            device,
            left: bytes,
            step,
            end,
            flush_fails,
        }
    }

    /// Returns the device that was passed to `new`, as the calls left it. Takes no memory.
    pub fn into_inner(self) -> D
        ensures { result ≡ fuse_device self }
    {
        self.device
    }
}

// The number of bytes that may pass in a call for `length` bytes: the least of `length`, `step` and
// `left`. `step` must not be 0.
fn passing(length: usize, left: u64, step: usize) -> usize
    requires { 0 < step }
    ensures { result ≡ min (min length step) left }
{
    let most = length.min(step) as u64;
    most.min(left) as usize
}

impl<D: Read> Read for Fuse<D> {
    ghost use Rattle.twkb_io.specs.Taps.{Dries, KeepsSettings, end_of, fuse_device, left_of, moved, passed, step_of};

    ghost remaining = { λ fuse. passed (left_of fuse) (D.remaining (fuse_device fuse)) };

    fn read(&mut self, buf: &mut [u8]) -> io::Result<usize>
        ensures bound { ReadsAtMost result buf.new }
        ensures bytes { ReadConsumes (passed (left_of self.old)
            (D.remaining (fuse_device self.old))) (passed (left_of self.new)
            (D.remaining (fuse_device self.new))) result buf.new }
        ensures step { IfOk result (λ count. (count ≤ step_of self.old) × (count ≤ left_of self.old)) }
        ensures left { left_of self.new ≡ left_of self.old - moved result }
        ensures dry { left_of self.old ≡ 0 → Dries (end_of self.old) result × (self.new ≡ self.old) }
        ensures settings { KeepsSettings self.old self.new }
    {
        if self.left == 0 {
            return self.end.answer();
        }
        let most = passing(buf.len(), self.left, self.step);
        let count = self.device.read(&mut buf[..most])?;
        self.left -= count as u64;
        Ok(count)
    }
}

impl<D: Write> Write for Fuse<D> {
    ghost use Rattle.twkb_io.specs.Taps.{Dries, KeepsSettings, end_of, fails_flush, fuse_device, left_of, moved};
    ghost use Rattle.twkb_io.specs.Taps.{step_of};

    ghost contents = { λ fuse. D.contents (fuse_device fuse) };

    fn write(&mut self, buf: &[u8]) -> io::Result<usize>
        ensures bound { WritesAtMost result buf.now }
        ensures bytes { WriteAppends (D.contents (fuse_device self.old))
            (D.contents (fuse_device self.new)) result buf.now }
        ensures step { IfOk result (λ count. (count ≤ step_of self.old) × (count ≤ left_of self.old)) }
        ensures left { left_of self.new ≡ left_of self.old - moved result }
        ensures dry { left_of self.old ≡ 0 → Dries (end_of self.old) result × (self.new ≡ self.old) }
        ensures settings { KeepsSettings self.old self.new }
    {
        if self.left == 0 {
            return self.end.answer();
        }
        let most = passing(buf.len(), self.left, self.step);
        let count = self.device.write(&buf[..most])?;
        self.left -= count as u64;
        Ok(count)
    }

    fn flush(&mut self) -> io::Result<()>
        ensures bytes { Keeps (D.contents (fuse_device self.old)) (D.contents (fuse_device self.new)) }
        ensures fails { fails_flush self.old ≡ true → IsErr result × (self.new ≡ self.old) }
        ensures left { left_of self.new ≡ left_of self.old }
        ensures settings { KeepsSettings self.old self.new }
    {
        if self.flush_fails {
            return Err(ErrorKind::Other.into());
        }
        self.device.flush()
    }
}
