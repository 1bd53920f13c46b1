//! Streams of linestrings joined with the rests of CSVs: rows of another hand, with each read of
//! either and each write failing in turn, with a failed flush, and with each growth refused in turn;
//! what is packed with a rest is joined again.
use crate::devices::{Failing, SOUND, cut_reader, cut_writer};
use rows::{ROWS, Row};
use std::alloc::Global;
use twkb_convert::{Cause, Style};
use twkb_csv::Column;
use twkb_geom::Limits;
use twkb_io::Tap;
use twkb_rest::{JoinCause, RestReason, UnpackCause, unpack_rest};
use twkb_split::pack_rest;

mod rows;

// What was written of a row's CSV, and why the joining stopped.
#[derive(Drop)]
struct Ended {
    written: Vec<u8>,
    done: u64,
    sent: u64,
    taken: u64,
    has_unflushed: bool,
    stopped: Option<JoinCause>,
}

// Joins the stream and the rest of a row between devices that pass a byte a call: the stream and the
// writer fail as `failing` says, and the rest gives so many bytes.
fn joined(alloc: Global, row: &Row, failing: Failing, rest_given: u64, room: Vec<u8>) -> Ended {
    let mut reader = cut_reader(row.input, failing.given);
    let mut rest = cut_reader(row.rest, rest_given);
    let mut writer = cut_writer(room, failing);
    let answer = unpack_rest(
        alloc,
        &mut reader,
        &mut rest,
        &mut writer,
        Limits::standard(),
        b"line",
        row.delimiter,
    );
    let (done, sent, taken, stopped) = match answer {
        Ok(report) => (report.geometries, report.bytes, report.taken, None),
        Err(fault) => (fault.done, fault.sent, fault.taken, Some(fault.cause)),
    };
    Ended {
        done,
        sent,
        taken,
        stopped,
        has_unflushed: writer.has_unflushed(),
        written: writer.into_inner().into_inner(),
    }
}

// Whether a prefix of the row's CSV was written.
fn is_prefix(row: &Row, found: &Ended) -> bool {
    row.output.starts_with(&found.written) && found.sent == found.written.len() as u64
}

// Whether the row's CSV was written and flushed, and the joining stopped as the row says.
fn is_whole(row: &Row, found: &Ended) -> bool {
    is_prefix(row, found)
        && found.written.len() == row.output.len()
        && found.stopped == row.stopped
        && found.done == row.done
        && found.taken == row.taken
        && !found.has_unflushed
}

fn is_joined(alloc: Global, row: &Row) -> bool {
    is_whole(
        row,
        &joined(alloc, row, SOUND, SOUND.given, Vec::new(alloc)),
    )
}

#[test]
fn a_stream_is_joined_with_a_rest(rt: HostRuntime) {
    for row in &ROWS {
        let is_joined = is_joined(rt.alloc(), row);
        assert!(rt; is_joined, "{}", row.name);
    }
}

// A cause of the stream or of the writer.
fn stream_cause(why: Cause) -> Option<JoinCause> {
    Some(JoinCause::Column(UnpackCause::Stream(why)))
}

// Whether a read of the stream that fails after this many bytes is told after a prefix of the CSV,
// or the row is refused before it.
fn read_is_told(alloc: Global, row: &Row, given: u64) -> bool {
    let failing = Failing { given, ..SOUND };
    let found = joined(alloc, row, failing, SOUND.given, Vec::new(alloc));
    let is_read = found.stopped == stream_cause(Cause::ReadDevice);
    is_whole(row, &found) || (is_read && is_prefix(row, &found) && !found.has_unflushed)
}

// The same of a read of the rest.
fn rest_read_is_told(alloc: Global, row: &Row, given: u64) -> bool {
    let found = joined(alloc, row, SOUND, given, Vec::new(alloc));
    let is_read = found.stopped == Some(JoinCause::RestDevice);
    is_whole(row, &found) || (is_read && is_prefix(row, &found) && !found.has_unflushed)
}

fn reads_are_told(alloc: Global, row: &Row) -> bool {
    let mut are_told = true;
    for given in 0..row.input.len() {
        are_told = are_told && read_is_told(alloc, row, given as u64);
    }
    are_told
}

fn rest_reads_are_told(alloc: Global, row: &Row) -> bool {
    let mut are_told = true;
    for given in 0..row.rest.len() {
        are_told = are_told && rest_read_is_told(alloc, row, given as u64);
    }
    are_told
}

#[test]
fn each_read_of_a_stream_or_its_rest_that_fails_is_told(rt: HostRuntime) {
    for row in &ROWS {
        let are_told = reads_are_told(rt.alloc(), row) && rest_reads_are_told(rt.alloc(), row);
        assert!(rt; are_told, "{}", row.name);
    }
}

// Whether a write that fails after this many bytes is told after these bytes of the CSV.
fn write_is_told(alloc: Global, row: &Row, taken: usize) -> bool {
    let failing = Failing {
        taken: taken as u64,
        ..SOUND
    };
    let found = joined(alloc, row, failing, SOUND.given, Vec::new(alloc));
    found.stopped == stream_cause(Cause::WriteDevice)
        && is_prefix(row, &found)
        && found.written.len() == taken
}

fn writes_are_told(alloc: Global, row: &Row) -> bool {
    let mut are_told = true;
    for taken in 0..row.output.len() {
        are_told = are_told && write_is_told(alloc, row, taken);
    }
    are_told
}

#[test]
fn each_write_of_joined_records_that_fails_is_told(rt: HostRuntime) {
    for row in &ROWS {
        let are_told = writes_are_told(rt.alloc(), row);
        assert!(rt; are_told, "{}", row.name);
    }
}

fn flush_is_told(alloc: Global, row: &Row) -> bool {
    let failing = Failing {
        flush_fails: true,
        ..SOUND
    };
    let found = joined(alloc, row, failing, SOUND.given, Vec::new(alloc));
    found.stopped == stream_cause(Cause::WriteDevice)
        && is_prefix(row, &found)
        && found.written.len() == row.output.len()
}

#[test]
fn a_flush_of_joined_records_that_fails_is_told(rt: HostRuntime) {
    for row in &ROWS {
        let is_told = flush_is_told(rt.alloc(), row);
        assert!(rt; is_told, "{}", row.name);
    }
}

// Whether every refused growth is want of memory after a prefix of the CSV.
fn growths_are_told(alloc: Global, row: &Row) -> bool {
    let Ok(room) = Vec::with_capacity(alloc, row.output.len()) else {
        return true;
    };
    let found = joined(alloc, row, SOUND, SOUND.given, room);
    let lacks = found.stopped == stream_cause(Cause::Memory);
    is_whole(row, &found) || (lacks && is_prefix(row, &found))
}

#[test]
fn a_refused_growth_for_joined_records_leaves_a_front_of_them(rt: HostRuntime) {
    for row in &ROWS {
        let are_told = growths_are_told(rt.alloc(), row);
        assert!(rt; are_told, "{}", row.name);
    }
}

// The CSV whose column is packed with its rest and joined again, or none if either stopped.
fn packed_and_joined(alloc: Global, csv: &[u8]) -> Option<Vec<u8>> {
    let column = Column {
        name: b"line",
        ids: None,
        precision: 5,
        nulls: &[],
        delimiter: b',',
    };
    let limits = Limits::standard();
    let mut blobs = Tap::new(Vec::new(alloc));
    let mut rest = Tap::new(Vec::new(alloc));
    let mut reader = Tap::new(csv);
    pack_rest(
        alloc,
        &mut reader,
        &mut blobs,
        &mut rest,
        limits,
        Style::Full,
        column,
    )
    .ok()?;
    let (blobs, rest) = (blobs.into_inner(), rest.into_inner());
    let mut stream = Tap::new(blobs.as_slice());
    let mut records = Tap::new(rest.as_slice());
    let mut writer = Tap::new(Vec::new(alloc));
    unpack_rest(
        alloc,
        &mut stream,
        &mut records,
        &mut writer,
        limits,
        b"line",
        b',',
    )
    .ok()?;
    Some(writer.into_inner())
}

// Whether a CSV comes back as it is.
fn comes_back(alloc: Global, csv: &[u8]) -> bool {
    match packed_and_joined(alloc, csv) {
        Some(again) => again.as_slice() == csv,
        None => false,
    }
}

#[test]
fn a_csv_comes_back_from_its_stream_and_its_rest(rt: HostRuntime) {
    let alloc = rt.alloc();
    let csv = b"id,line,name\n1,_p~iF~ps|U_ulLnnqC_mqNvxq`@,Bern\n2,,\"a, \"\"b\"\"\nc\"\n3,AC,\n";
    let comes_back = comes_back(alloc, csv.as_slice());
    assert!(rt; comes_back);
}

// Whether a cause has this text.
fn tells(alloc: Global, cause: JoinCause, text: &str) -> bool {
    match cause.to_string(alloc) {
        Ok(told) => told.as_str() == text,
        Err(_) => false,
    }
}

#[test]
fn causes_of_joining_have_their_texts(rt: HostRuntime) {
    let alloc = rt.alloc();
    let no_blob = JoinCause::Rest {
        number: 3,
        reason: RestReason::NoBlob,
    };
    assert!(rt;
        tells(
            alloc,
            JoinCause::NoRecord { offset: 3 },
            "byte 3: no record for the blob"
        )
    );
    assert!(rt; tells(alloc, no_blob, "record 3: no blob for the record"));
}
