//! Devices that fail after a number of bytes, and conversions over them that report how the devices
//! were called.
use example_callers::Account;
use std::alloc::Global;
use std::io::{Read, Write};
use twkb_conversions::{Conversion, convert};
use twkb_convert::{ConvertFault, Report};
use twkb_geom::Limits;
use twkb_io::{Fuse, FuseEnd, Tap};

/// How devices fail: after how many bytes the reader fails; after how many the writer ends, and
/// how; and whether its flush fails.
#[derive(Clone, Copy)]
pub struct Failing {
    pub given: u64,
    pub taken: u64,
    pub end: FuseEnd,
    pub flush_fails: bool,
}

/// The number of bytes of a device that does not fail.
pub const AMPLE: u64 = 999_999;

/// Devices that do not fail.
pub const SOUND: Failing = Failing {
    given: AMPLE,
    taken: AMPLE,
    end: FuseEnd::Fail,
    flush_fails: false,
};

/// Makes a reader that gives this many of the bytes, one a read, and then fails.
pub fn cut_reader(bytes: &[u8], given: u64) -> Tap<Fuse<&[u8]>> {
    Tap::new(Fuse::new(bytes, given, 1, FuseEnd::Fail, false))
}

/// Makes a writer that takes this many bytes after those it holds, one a write, and then ends.
pub fn cut_writer(held: Vec<u8>, failing: Failing) -> Tap<Fuse<Vec<u8>>> {
    Tap::new(Fuse::new(held, failing.taken, 1, failing.end, failing.flush_fails))
}

/// Makes a writer in memory that takes this many bytes and then fails.
pub fn short_writer(alloc: Global, taken: u64) -> Tap<Fuse<Vec<u8>>> {
    Tap::new(Fuse::new(Vec::new(alloc), taken, 1, FuseEnd::Fail, taken != AMPLE))
}

// ---- conversions over devices that report how they were called

/// The account of an answer.
pub fn account_of(answer: Result<Report, ConvertFault>) -> Account {
    match answer {
        Ok(report) => Account {
            done: report.geometries,
            sent: report.bytes,
            stopped: None,
        },
        Err(fault) => Account {
            done: fault.done,
            sent: fault.sent,
            stopped: Some(fault.cause),
        },
    }
}

/// Carries a conversion out under the standard limits.
pub fn carry_out<R: Read, W: Write>(
    alloc: Global,
    what: Conversion,
    reader: &mut Tap<R>,
    writer: &mut Tap<W>,
) -> Account {
    let limits = Limits::standard();
    account_of(convert(alloc, what, reader, writer, limits))
}

/// The result of a conversion, the bytes written, the numbers of bytes read, of writes and of
/// flushes, and whether bytes were written after the last flush.
#[derive(Drop)]
pub struct Ended {
    pub account: Account,
    pub written: Vec<u8>,
    pub read: u64,
    pub calls: u64,
    pub has_unflushed: bool,
}

/// Carries a conversion out over devices that pass one byte a call and fail in this way; the
/// writer fills an empty room.
pub fn carried(
    alloc: Global,
    what: Conversion,
    input: &[u8],
    failing: Failing,
    room: Vec<u8>,
) -> Ended {
    let mut reader = cut_reader(input, failing.given);
    let mut writer = cut_writer(room, failing);
    let account = carry_out(alloc, what, &mut reader, &mut writer);
    Ended {
        account,
        read: reader.given(),
        calls: writer.calls(),
        has_unflushed: writer.has_unflushed(),
        written: writer.into_inner().into_inner(),
    }
}
