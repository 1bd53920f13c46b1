//! Columns of CSVs, packed with the rest beside them: the streams and the refusals of columns, with
//! each read and each write of either failing in turn, with a flush of either failing, and with each
//! growth refused in turn.
use crate::column::rows::{ROWS, Row};
use crate::devices::{Failing, SOUND, cut_reader, cut_writer};
use std::alloc::Global;
use twkb_convert::Cause;
use twkb_csv::Column;
use twkb_geom::Limits;
use twkb_split::{ColumnCause, pack_rest};

// The rows by reference: as an array they would be variables of each test, too many for its proof.
const TABLE: &[Row] = &ROWS;

// What was written of a row's stream and of its rest, and the answer.
#[derive(Drop)]
struct Ended {
    stream: Vec<u8>,
    rest: Vec<u8>,
    done: u64,
    sent: u64,
    taken: u64,
    has_unflushed: bool,
    stopped: Option<ColumnCause>,
}

// Rooms for a stream and a rest.
#[derive(Drop)]
struct Rooms {
    stream: Vec<u8>,
    rest: Vec<u8>,
}

// Rooms that hold nothing and have no memory.
fn no_rooms(alloc: Global) -> Rooms {
    Rooms {
        stream: Vec::new(alloc),
        rest: Vec::new(alloc),
    }
}

// Packs the column of a row and its rest, between devices that pass a byte a call: the CSV and the
// stream fail as `failing` says, and the rest as `other`.
fn packed(alloc: Global, row: &Row, failing: Failing, other: Failing, rooms: Rooms) -> Ended {
    let column = Column {
        name: b"line",
        ids: row.ids,
        precision: row.precision,
        nulls: row.nulls.as_slice(),
        delimiter: row.delimiter,
    };
    let mut csv = cut_reader(row.input, failing.given);
    let mut blobs = cut_writer(rooms.stream, failing);
    let mut rest = cut_writer(rooms.rest, other);
    let limits = Limits::standard();
    let answer = pack_rest(
        alloc, &mut csv, &mut blobs, &mut rest, limits, row.style, column,
    );
    let (done, sent, taken, stopped) = match answer {
        Ok(report) => (report.geometries, report.bytes, report.taken, None),
        Err(fault) => (fault.done, fault.sent, fault.taken, Some(fault.cause)),
    };
    Ended {
        done,
        sent,
        taken,
        stopped,
        has_unflushed: blobs.has_unflushed() || rest.has_unflushed(),
        stream: blobs.into_inner().into_inner(),
        rest: rest.into_inner().into_inner(),
    }
}

// Whether prefixes of the row's stream and rest were written.
fn is_prefix(row: &Row, found: &Ended) -> bool {
    row.stream.starts_with(&found.stream)
        && row.rest.starts_with(&found.rest)
        && found.sent == found.stream.len() as u64
}

// Whether the row's stream and rest were written, and packing stopped as the row says.
fn is_whole(row: &Row, found: &Ended) -> bool {
    is_prefix(row, found)
        && found.stream.len() == row.stream.len()
        && found.rest.len() == row.rest.len()
        && found.stopped == row.stopped
        && found.done == row.done
        && found.taken == row.taken
        && !found.has_unflushed
}

fn is_packed(alloc: Global, row: &Row) -> bool {
    is_whole(row, &packed(alloc, row, SOUND, SOUND, no_rooms(alloc)))
}

#[test]
fn a_column_is_packed_with_its_rest(rt: HostRuntime) {
    for row in TABLE {
        let is_packed = is_packed(rt.alloc(), row);
        assert!(rt; is_packed, "{}", row.name);
    }
}

// Whether a read that fails after this many bytes is told after prefixes, or the row is refused
// before it.
fn read_is_told(alloc: Global, row: &Row, given: u64) -> bool {
    let failing = Failing { given, ..SOUND };
    let found = packed(alloc, row, failing, SOUND, no_rooms(alloc));
    let is_read = found.stopped == Some(ColumnCause::Pack(Cause::ReadDevice));
    is_whole(row, &found) || (is_read && is_prefix(row, &found) && !found.has_unflushed)
}

fn reads_are_told(alloc: Global, row: &Row) -> bool {
    let mut are_told = true;
    for given in 0..row.input.len() {
        are_told = are_told && read_is_told(alloc, row, given as u64);
    }
    are_told
}

#[test]
fn each_read_of_a_csv_with_a_rest_that_fails_is_told(rt: HostRuntime) {
    for row in TABLE {
        let are_told = reads_are_told(rt.alloc(), row);
        assert!(rt; are_told, "{}", row.name);
    }
}

// Whether a write failed, after prefixes of the row's stream and rest.
fn is_failed_write(row: &Row, found: &Ended) -> bool {
    found.stopped == Some(ColumnCause::Pack(Cause::WriteDevice)) && is_prefix(row, found)
}

// Whether a write of the stream that fails after this many bytes is told after these bytes.
fn blob_is_told(alloc: Global, row: &Row, taken: usize) -> bool {
    let failing = Failing {
        taken: taken as u64,
        ..SOUND
    };
    let found = packed(alloc, row, failing, SOUND, no_rooms(alloc));
    is_failed_write(row, &found) && found.stream.len() == taken
}

// Whether a write of the rest that fails after this many bytes is told after these bytes.
fn record_is_told(alloc: Global, row: &Row, taken: usize) -> bool {
    let other = Failing {
        taken: taken as u64,
        ..SOUND
    };
    let found = packed(alloc, row, SOUND, other, no_rooms(alloc));
    is_failed_write(row, &found) && found.rest.len() == taken
}

fn writes_are_told(alloc: Global, row: &Row) -> bool {
    let mut are_told = true;
    for taken in 0..row.stream.len() {
        are_told = are_told && blob_is_told(alloc, row, taken);
    }
    are_told
}

fn rest_writes_are_told(alloc: Global, row: &Row) -> bool {
    let mut are_told = true;
    for taken in 0..row.rest.len() {
        are_told = are_told && record_is_told(alloc, row, taken);
    }
    are_told
}

#[test]
fn each_write_of_a_stream_or_a_rest_that_fails_is_told(rt: HostRuntime) {
    for row in TABLE {
        let are_told = writes_are_told(rt.alloc(), row) && rest_writes_are_told(rt.alloc(), row);
        assert!(rt; are_told, "{}", row.name);
    }
}

// Whether a failed flush of the one or of the other is told after all that is written.
fn flushes_are_told(alloc: Global, row: &Row) -> bool {
    let failing = Failing {
        flush_fails: true,
        ..SOUND
    };
    let stream = packed(alloc, row, failing, SOUND, no_rooms(alloc));
    let rest = packed(alloc, row, SOUND, failing, no_rooms(alloc));
    is_failed_write(row, &stream)
        && stream.rest.len() == row.rest.len()
        && is_failed_write(row, &rest)
        && rest.stream.len() == row.stream.len()
}

#[test]
fn a_flush_of_a_stream_or_a_rest_that_fails_is_told(rt: HostRuntime) {
    for row in TABLE {
        let are_told = flushes_are_told(rt.alloc(), row);
        assert!(rt; are_told, "{}", row.name);
    }
}

// Rooms for the row's stream and rest, unless memory is refused.
fn rooms_for(alloc: Global, row: &Row) -> Option<Rooms> {
    let stream = Vec::with_capacity(alloc, row.stream.len()).ok()?;
    let rest = Vec::with_capacity(alloc, row.rest.len()).ok()?;
    Some(Rooms { stream, rest })
}

// Whether every refused growth is want of memory after prefixes.
fn growths_are_told(alloc: Global, row: &Row) -> bool {
    let Some(rooms) = rooms_for(alloc, row) else {
        return true;
    };
    let found = packed(alloc, row, SOUND, SOUND, rooms);
    let lacks = found.stopped == Some(ColumnCause::Pack(Cause::Memory));
    is_whole(row, &found) || (lacks && is_prefix(row, &found))
}

#[test]
fn a_refused_growth_leaves_fronts_of_a_stream_and_its_rest(rt: HostRuntime) {
    for row in TABLE {
        let are_told = growths_are_told(rt.alloc(), row);
        assert!(rt; are_told, "{}", row.name);
    }
}
