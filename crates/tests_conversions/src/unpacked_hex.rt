//! Columns of digits as polylines: rows of another hand, with each read and each write failing in
//! turn, and with each growth refused in turn.
use rows::{ROWS, Row};
use std::alloc::Global;
use twkb_convert::BlobReason;
use twkb_hex::{HexCause, HexFault, HexReason, HexReport, Unpacking, unpack_hex};
use twkb_io::{Fuse, FuseEnd, Tap};
use twkb_tree::Limits;

mod rows;

// The number of bytes of a device that does not fail.
const AMPLE: u64 = 999_999;

// What was written of a row's output, and why unpacking stopped.
#[derive(Drop)]
struct Ended {
    written: Vec<u8>,
    sent: u64,
    stopped: Option<HexCause>,
}

// How many bytes were sent, and why a conversion stopped, if it did.
fn told(answer: Result<HexReport, HexFault>) -> (u64, Option<HexCause>) {
    match answer {
        Ok(report) => (report.bytes, None),
        Err(fault) => (fault.sent, Some(fault.cause)),
    }
}

// Unpacks the column of a row, whose CSV comes a byte a read and fails after `given`, into a room
// that is empty and fails after `taken`.
fn unpacked(alloc: Global, row: &Row, given: u64, taken: u64, room: Vec<u8>) -> Ended {
    let unpacking = Unpacking {
        name: b"line",
        delimiter: row.delimiter,
    };
    let mut reader = Tap::new(Fuse::new(row.input, given, 1, FuseEnd::Fail, false));
    let mut writer = Tap::new(Fuse::new(room, taken, 1, FuseEnd::Fail, false));
    let limits = Limits::standard();
    let answer = unpack_hex(alloc, &mut reader, &mut writer, &unpacking, &limits);
    let (sent, stopped) = told(answer);
    Ended {
        sent,
        stopped,
        written: writer.into_inner().into_inner(),
    }
}

// Whether a prefix of the row's output was written.
fn is_prefix(row: &Row, found: &Ended) -> bool {
    row.output.starts_with(&found.written) && found.sent == found.written.len() as u64
}

// Whether unpacking stopped as the row says.
fn is_stopped(row: &Row, found: &Ended) -> bool {
    let refused = row
        .refused
        .map(|(number, reason)| HexCause::Record { number, reason });
    found.stopped == refused
}

// Whether the row's output was written, and unpacking stopped as the row says.
fn is_whole(row: &Row, found: &Ended) -> bool {
    is_prefix(row, found) && found.written.len() == row.output.len() && is_stopped(row, found)
}

fn is_unpacked(alloc: Global, row: &Row) -> bool {
    is_whole(row, &unpacked(alloc, row, AMPLE, AMPLE, Vec::new(alloc)))
}

#[test]
fn digits_become_polylines_in_their_csv(rt: HostRuntime) {
    for row in &ROWS {
        let is_unpacked = is_unpacked(rt.alloc(), row);
        assert!(rt; is_unpacked, "{}", row.name);
    }
}

// Whether a read that fails after this many bytes is told after a prefix of the output, or the row
// is refused before it.
fn read_is_told(alloc: Global, row: &Row, given: u64) -> bool {
    let found = unpacked(alloc, row, given, AMPLE, Vec::new(alloc));
    is_prefix(row, &found) && (found.stopped == Some(HexCause::ReadDevice) || is_whole(row, &found))
}

fn reads_are_told(alloc: Global, row: &Row) -> bool {
    let mut are_told = true;
    for given in 0..row.input.len() {
        are_told = are_told && read_is_told(alloc, row, given as u64);
    }
    are_told
}

#[test]
fn each_failed_read_of_digits_is_told_after_a_prefix(rt: HostRuntime) {
    for row in &ROWS {
        let are_told = reads_are_told(rt.alloc(), row);
        assert!(rt; are_told, "{}", row.name);
    }
}

// Whether a write that fails after this many bytes is told, and these were written.
fn write_is_told(alloc: Global, row: &Row, taken: u64) -> bool {
    let found = unpacked(alloc, row, AMPLE, taken, Vec::new(alloc));
    is_prefix(row, &found) && found.sent == taken && found.stopped == Some(HexCause::WriteDevice)
}

fn writes_are_told(alloc: Global, row: &Row) -> bool {
    let mut are_told = true;
    for taken in 0..row.output.len() {
        are_told = are_told && write_is_told(alloc, row, taken as u64);
    }
    are_told
}

#[test]
fn each_failed_write_of_polylines_is_told_after_the_bytes_taken(rt: HostRuntime) {
    for row in &ROWS {
        let are_told = writes_are_told(rt.alloc(), row);
        assert!(rt; are_told, "{}", row.name);
    }
}

// Whether every refused growth is want of memory after a prefix of the output.
fn growths_are_told(alloc: Global, row: &Row) -> bool {
    let Ok(room) = Vec::with_capacity(alloc, row.output.len()) else {
        return true;
    };
    let found = unpacked(alloc, row, AMPLE, AMPLE, room);
    is_whole(row, &found) || (found.stopped == Some(HexCause::Memory) && is_prefix(row, &found))
}

#[test]
fn a_refused_growth_of_unpacking_is_want_of_memory_after_a_prefix(rt: HostRuntime) {
    for row in &ROWS {
        let are_told = growths_are_told(rt.alloc(), row);
        assert!(rt; are_told, "{}", row.name);
    }
}

// The texts of reasons, with their places.
const LINES: [(HexReason, &str); 5] = [
    (
        HexReason::NoDigits(4),
        "record 3: byte 4: no hexadecimal digits",
    ),
    (
        HexReason::OddDigits(9),
        "record 3: byte 9: odd number of digits",
    ),
    (
        HexReason::Blob(9, BlobReason::Truncated),
        "record 3: byte 9: truncated",
    ),
    (HexReason::NoLinestring, "record 3: byte 0: no linestring"),
    (
        HexReason::MoreBlobs(10),
        "record 3: byte 10: more than one blob",
    ),
];

// Whether a cause is printed as this line.
fn is_printed(alloc: Global, reason: HexReason, line: &str) -> bool {
    let cause = HexCause::Record { number: 3, reason };
    match format!(in alloc; "{cause}") {
        Ok(text) => text.as_str() == line,
        Err(_) => false,
    }
}

#[test]
fn a_reason_names_the_record_and_the_byte(rt: HostRuntime) {
    for (reason, line) in &LINES {
        let is_printed = is_printed(rt.alloc(), *reason, line);
        assert!(rt; is_printed, "{line}");
    }
}
