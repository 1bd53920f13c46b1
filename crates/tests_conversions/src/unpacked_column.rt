//! Streams of linestrings as columns of CSVs: rows of another hand, with each read and each write
//! failing in turn, and with each growth refused in turn.
use crate::devices::{AMPLE, Failing, SOUND, cut_reader, cut_writer};
use rows::{ROWS, Row};
use std::alloc::Global;
use twkb_convert::Cause;
use twkb_geom::Limits;
use twkb_rest::{LineReason, UnpackCause, unpack_column};

mod rows;

// What was written of a row's column, and why the unpacking stopped.
#[derive(Drop)]
struct Ended {
    written: Vec<u8>,
    done: u64,
    sent: u64,
    taken: u64,
    has_unflushed: bool,
    stopped: Option<UnpackCause>,
}

// Unpacks the stream of a row between devices that pass a byte a call and fail in this way, into a
// room that is empty.
fn unpacked(alloc: Global, row: &Row, failing: Failing, room: Vec<u8>) -> Ended {
    let mut reader = cut_reader(row.input, failing.given);
    let mut writer = cut_writer(room, failing);
    let limits = Limits::standard();
    let answer = unpack_column(
        alloc,
        &mut reader,
        &mut writer,
        limits,
        row.column,
        row.delimiter,
    );
    let (done, sent, taken, stopped) = match answer {
        Ok(report) => (report.geometries, report.bytes, report.taken, None),
        Err(fault) => (fault.done, fault.sent, fault.taken, Some(fault.cause)),
    };
    Ended {
        done,
        sent,
        taken,
        stopped,
        has_unflushed: writer.has_unflushed(),
        written: writer.into_inner().into_inner(),
    }
}

// Whether a prefix of the row's column was written.
fn is_prefix(row: &Row, found: &Ended) -> bool {
    row.output.starts_with(&found.written) && found.sent == found.written.len() as u64
}

// Whether the row's column was written and flushed, and the unpacking stopped as the row says.
fn is_whole(row: &Row, found: &Ended) -> bool {
    is_prefix(row, found)
        && found.written.len() == row.output.len()
        && found.stopped == row.stopped
        && found.done == row.done
        && found.taken == row.taken
        && !found.has_unflushed
}

fn is_unpacked(alloc: Global, row: &Row) -> bool {
    is_whole(row, &unpacked(alloc, row, SOUND, Vec::new(alloc)))
}

#[test]
fn a_stream_of_linestrings_is_unpacked_as_a_column(rt: HostRuntime) {
    for row in &ROWS {
        let is_unpacked = is_unpacked(rt.alloc(), row);
        assert!(rt; is_unpacked, "{}", row.name);
    }
}

// Whether a read that fails after this many bytes is told after a prefix of the column, or the row
// is refused before it.
fn read_is_told(alloc: Global, row: &Row, given: u64) -> bool {
    let failing = Failing { given, ..SOUND };
    let found = unpacked(alloc, row, failing, Vec::new(alloc));
    let is_read = found.stopped == Some(UnpackCause::Stream(Cause::ReadDevice));
    is_whole(row, &found) || (is_read && is_prefix(row, &found) && !found.has_unflushed)
}

fn reads_are_told(alloc: Global, row: &Row) -> bool {
    let mut are_told = true;
    for given in 0..row.input.len() {
        are_told = are_told && read_is_told(alloc, row, given as u64);
    }
    are_told
}

#[test]
fn each_read_of_a_stream_of_linestrings_that_fails_is_told(rt: HostRuntime) {
    for row in &ROWS {
        let are_told = reads_are_told(rt.alloc(), row);
        assert!(rt; are_told, "{}", row.name);
    }
}

// Whether a write that fails after this many bytes is told after these bytes of the column.
fn write_is_told(alloc: Global, row: &Row, taken: usize) -> bool {
    let failing = Failing {
        taken: taken as u64,
        ..SOUND
    };
    let found = unpacked(alloc, row, failing, Vec::new(alloc));
    found.stopped == Some(UnpackCause::Stream(Cause::WriteDevice))
        && is_prefix(row, &found)
        && found.written.len() == taken
}

fn writes_are_told(alloc: Global, row: &Row) -> bool {
    let mut are_told = true;
    for taken in 0..row.output.len() {
        are_told = are_told && write_is_told(alloc, row, taken);
    }
    are_told
}

#[test]
fn each_write_of_a_column_that_fails_is_told(rt: HostRuntime) {
    for row in &ROWS {
        let are_told = writes_are_told(rt.alloc(), row);
        assert!(rt; are_told, "{}", row.name);
    }
}

fn flush_is_told(alloc: Global, row: &Row) -> bool {
    let failing = Failing {
        flush_fails: true,
        ..SOUND
    };
    let found = unpacked(alloc, row, failing, Vec::new(alloc));
    found.stopped == Some(UnpackCause::Stream(Cause::WriteDevice))
        && is_prefix(row, &found)
        && found.written.len() == row.output.len()
}

#[test]
fn a_flush_of_a_column_that_fails_is_told(rt: HostRuntime) {
    for row in &ROWS {
        let is_told = flush_is_told(rt.alloc(), row);
        assert!(rt; is_told, "{}", row.name);
    }
}

// Whether every refused growth is want of memory after a prefix of the column.
fn growths_are_told(alloc: Global, row: &Row) -> bool {
    let Ok(room) = Vec::with_capacity(alloc, row.output.len()) else {
        return true;
    };
    let found = unpacked(alloc, row, SOUND, room);
    let lacks = found.stopped == Some(UnpackCause::Stream(Cause::Memory));
    is_whole(row, &found) || (lacks && is_prefix(row, &found))
}

#[test]
fn a_refused_growth_for_a_column_out_leaves_a_front_of_it(rt: HostRuntime) {
    for row in &ROWS {
        let are_told = growths_are_told(rt.alloc(), row);
        assert!(rt; are_told, "{}", row.name);
    }
}

// Whether a refusal at a byte has this text.
fn tells(alloc: Global, offset: u64, reason: LineReason, text: &str) -> bool {
    match (UnpackCause::Line { offset, reason }).to_string(alloc) {
        Ok(told) => told.as_str() == text,
        Err(_) => false,
    }
}

#[test]
fn refusals_of_linestrings_have_their_texts(rt: HostRuntime) {
    let alloc = rt.alloc();
    assert!(rt; tells(alloc, 3, LineReason::NoLinestring, "byte 3: no linestring"));
    assert!(rt;
        tells(
            alloc,
            41,
            LineReason::AnotherPrecision,
            "byte 41: another precision"
        )
    );
}
