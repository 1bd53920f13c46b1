//! A device with counts of its calls, of their failures and of its bytes.
ghost use Rattle.std.specs.Prelude.{◌≡◌, ◌&&◌, ◌||◌, is_err, false};
ghost use Rattle.std.specs.Io.{ReadsAtMost, WritesAtMost};
ghost use Rattle.std.specs.Io.KnownBytes.{Keeps, ReadConsumes, WriteAppends};

use std::io;
use std::io::{Read, Write};

/// A reader or a writer with counts of its calls, of its flushes, of the calls that failed and of
/// the bytes that it gave. It also knows whether it took bytes after the last flush that succeeded,
/// and whether its last write had bytes and took none, without an error. Each read, write and flush
/// is passed on once, and answered as the device answers it. Takes no memory itself.
#[derive(Drop)]
pub struct Tap<D> {
    device: D,
    calls: u64,
    flushes: u64,
    failures: u64,
    given: u64,
    unflushed: bool,
    stuck: bool,
}

impl<D> Tap<D> {
    ghost use Rattle.twkb_io.specs.Taps.{bytes_given, calls_of, count_failure, device_of, failures_of, flushes_of};
    ghost use Rattle.twkb_io.specs.Taps.{has_unflushed, is_stuck, one_call};

    /// Wraps a device, with all counts at 0. Takes no memory.
    pub fn new(device: D) -> Tap<D>
        ensures device { device_of result ≡ device }
        ensures calls { calls_of result ≡ 0 }
        ensures flushes { flushes_of result ≡ 0 }
        ensures failures { failures_of result ≡ 0 }
        ensures given { bytes_given result ≡ 0 }
        ensures flushed { has_unflushed result ≡ false }
    {
        Tap {
            device,
            calls: 0,
            flushes: 0,
            failures: 0,
            given: 0,
            unflushed: false,
            stuck: false,
        }
    }

    /// The number of reads, writes and flushes passed on. The count stops at `u64::MAX`. Takes no
    /// memory.
    pub fn calls(&self) -> u64
        ensures { result ≡ calls_of self.now }
    {
        self.calls
    }

    /// The number of calls that failed; a write of at least one byte that took none is one of them.
    /// The count stops at `u64::MAX`. Takes no memory.
    pub fn failures(&self) -> u64
        ensures { result ≡ failures_of self.now }
    {
        self.failures
    }

    /// The number of bytes that the reads gave. The count stops at `u64::MAX`. Takes no memory.
    pub fn given(&self) -> u64
        ensures { result ≡ bytes_given self.now }
    {
        self.given
    }

    /// Whether a write took bytes after the last flush that succeeded. Takes no memory.
    pub fn has_unflushed(&self) -> bool
        ensures { result ≡ has_unflushed self.now }
    {
        self.unflushed
    }

    /// Returns the device, as the calls left it. Takes no memory.
    pub fn into_inner(self) -> D
        ensures { result ≡ device_of self }
    {
        self.device
    }

    // Counts a call, and a failure if `has_failed`. Both counts stop at `u64::MAX`.
    fn count(&mut self, has_failed: bool)
        ensures calls { calls_of self.new ≡ one_call (calls_of self.old) }
        ensures flushes { flushes_of self.new ≡ flushes_of self.old }
        ensures failures { failures_of self.new ≡ count_failure has_failed (failures_of self.old) }
        ensures device { device_of self.new ≡ device_of self.old }
        ensures given { bytes_given self.new ≡ bytes_given self.old }
        ensures unflushed { has_unflushed self.new ≡ has_unflushed self.old }
        ensures stuck { is_stuck self.new ≡ is_stuck self.old }
    {
        self.calls = self.calls.saturating_add(1);
        if has_failed {
            self.failures = self.failures.saturating_add(1);
        }
    }
}

impl<D: Read> Read for Tap<D> {
    ghost use Rattle.twkb_io.specs.Taps.{bytes_given, calls_of, count_failure, count_given, device_of, failures_of};
    ghost use Rattle.twkb_io.specs.Taps.{one_call};

    ghost remaining = { λ tap. D.remaining (device_of tap) };

    fn read(&mut self, buf: &mut [u8]) -> io::Result<usize>
        ensures bound { ReadsAtMost result buf.new }
        ensures bytes { ReadConsumes (D.remaining (device_of self.old))
            (D.remaining (device_of self.new)) result buf.new }
        ensures calls { calls_of self.new ≡ one_call (calls_of self.old) }
        ensures failures { failures_of self.new ≡ count_failure (is_err result) (failures_of self.old) }
        ensures given { bytes_given self.new ≡ count_given result (bytes_given self.old) }
    {
        let read = self.device.read(buf);
        if let Ok(count) = &read {
            self.given = self.given.saturating_add(*count as u64);
        }
        self.count(read.is_err());
        read
    }
}

impl<D: Write> Write for Tap<D> {
    ghost use Rattle.twkb_io.specs.Taps.{calls_of, count_failure, device_of, failures_of, flushes_of, has_unflushed};
    ghost use Rattle.twkb_io.specs.Taps.{is_stuck, one_call, takes_none, takes_some, write_failed};

    ghost contents = { λ tap. D.contents (device_of tap) };

    fn write(&mut self, buf: &[u8]) -> io::Result<usize>
        ensures bound { WritesAtMost result buf.now }
        ensures bytes { WriteAppends (D.contents (device_of self.old))
            (D.contents (device_of self.new)) result buf.now }
        ensures calls { calls_of self.new ≡ one_call (calls_of self.old) }
        ensures flushes { flushes_of self.new ≡ flushes_of self.old }
        ensures failures { failures_of self.new ≡ count_failure (write_failed result buf.now) (failures_of self.old) }
        ensures unflushed { has_unflushed self.new ≡ has_unflushed self.old || takes_some result }
        ensures stuck { is_stuck self.new ≡ takes_none result buf.now }
    {
        match self.device.write(buf) {
            Ok(taken) => {
                self.unflushed |= taken != 0;
                self.stuck = (taken == 0) & !buf.is_empty();
                self.count(self.stuck);
                Ok(taken)
            }
            Err(fault) => {
                self.stuck = false;
                self.count(true);
                Err(fault)
            }
        }
    }

    fn flush(&mut self) -> io::Result<()>
        ensures bytes { Keeps (D.contents (device_of self.old)) (D.contents (device_of self.new)) }
        ensures calls { calls_of self.new ≡ one_call (calls_of self.old) }
        ensures failures { failures_of self.new ≡ count_failure (is_err result) (failures_of self.old) }
        ensures flushes { flushes_of self.new ≡ one_call (flushes_of self.old) }
        ensures unflushed { has_unflushed self.new ≡ is_err result && has_unflushed self.old }
    {
        let flushed = self.device.flush();
        self.flushes = self.flushes.saturating_add(1);
        self.unflushed = flushed.is_err() & self.unflushed;
        self.count(flushed.is_err());
        flushed
    }
}
