//! Columns of CSVs, packed: rows of another hand, with each read and each write failing in turn, and
//! with each growth refused in turn; the lines of causes.
use crate::devices::{AMPLE, Failing, SOUND, cut_reader, cut_writer};
use rows::Row;
use std::alloc::Global;
use twkb_column::{ColumnCause, ColumnFault, ColumnReason, pack_column};
use twkb_convert::{Cause, Report};
use twkb_csv::Column;
use twkb_geom::Limits;
use twkb_io::FuseEnd;

mod ids;
pub mod rows;

// All rows.
const TABLES: [&[Row]; 2] = [&rows::ROWS, &ids::ROWS];

// What was written of a row's stream, and the answer.
#[derive(Drop)]
struct Ended {
    written: Vec<u8>,
    answer: Result<Report, ColumnFault>,
}

// Packs the column of a row, whose CSV comes a byte a read, over devices that fail so, into a room
// that is empty.
fn packed(alloc: Global, row: &Row, failing: Failing, room: Vec<u8>) -> Ended {
    let column = Column {
        name: b"line",
        ids: row.ids,
        precision: row.precision,
        nulls: row.nulls.as_slice(),
        delimiter: row.delimiter,
    };
    let mut csv = cut_reader(row.input, failing.given);
    let mut writer = cut_writer(room, failing);
    let limits = Limits::standard();
    let answer = pack_column(alloc, &mut csv, &mut writer, limits, row.style, column);
    Ended {
        answer,
        written: writer.into_inner().into_inner(),
    }
}

// Why packing stopped, if it did.
fn stopped(answer: &Result<Report, ColumnFault>) -> Option<ColumnCause> {
    match answer {
        Ok(_) => None,
        Err(fault) => Some(fault.cause),
    }
}

// The numbers of blobs, of bytes and of records of an answer.
fn counts(answer: &Result<Report, ColumnFault>) -> (u64, u64, u64) {
    match answer {
        Ok(report) => (report.geometries, report.bytes, report.taken),
        Err(fault) => (fault.done, fault.sent, fault.taken),
    }
}

// Whether a prefix of the row's stream was written, and counted.
fn is_prefix(row: &Row, found: &Ended) -> bool {
    let (_, sent, _) = counts(&found.answer);
    row.stream.starts_with(&found.written) && sent == found.written.len() as u64
}

// Whether the answer counts the row's blobs, and their records.
fn is_counted(row: &Row, found: &Ended) -> bool {
    let (done, _, taken) = counts(&found.answer);
    done == row.done && taken == row.taken
}

// Whether the row's stream was written, and packing stopped as the row says.
fn is_whole(row: &Row, found: &Ended) -> bool {
    let is_all = is_prefix(row, found) && found.written.len() == row.stream.len();
    is_all && is_counted(row, found) && stopped(&found.answer) == row.stopped
}

fn is_packed(alloc: Global, row: &Row) -> bool {
    is_whole(row, &packed(alloc, row, SOUND, Vec::new(alloc)))
}

#[test]
fn a_column_is_packed_as_the_table_that_it_names(rt: HostRuntime) {
    for rows in TABLES {
        for row in rows {
            let is_packed = is_packed(rt.alloc(), row);
            assert!(rt; is_packed, "{}", row.name);
        }
    }
}

// Whether packing stopped for this cause.
fn is_stopped(found: &Ended, cause: Cause) -> bool {
    stopped(&found.answer) == Some(ColumnCause::Pack(cause))
}

// Whether a read that fails after this many bytes is told after a prefix of the stream, or the row
// is refused before it.
fn read_is_told(alloc: Global, row: &Row, given: u64) -> bool {
    let failing = Failing { given, ..SOUND };
    let found = packed(alloc, row, failing, Vec::new(alloc));
    is_prefix(row, &found) && (is_stopped(&found, Cause::ReadDevice) || is_whole(row, &found))
}

fn reads_are_told(alloc: Global, row: &Row) -> bool {
    let mut are_told = read_is_told(alloc, row, row.input.len() as u64);
    for given in 0..row.input.len() {
        are_told = are_told && read_is_told(alloc, row, given as u64);
    }
    are_told
}

#[test]
fn each_read_of_a_csv_that_fails_is_a_failed_read(rt: HostRuntime) {
    for rows in TABLES {
        for row in rows {
            let are_told = reads_are_told(rt.alloc(), row);
            assert!(rt; are_told, "{}", row.name);
        }
    }
}

// Whether a write that fails after this many bytes is told, and a flush that fails after all.
fn write_is_told(alloc: Global, row: &Row, taken: usize) -> bool {
    let failing = Failing {
        taken: taken as u64,
        flush_fails: taken == row.stream.len(),
        end: FuseEnd::Zero,
        ..SOUND
    };
    let found = packed(alloc, row, failing, Vec::new(alloc));
    let is_cut = is_prefix(row, &found) && found.written.len() == taken;
    is_cut && is_stopped(&found, Cause::WriteDevice)
}

fn writes_are_told(alloc: Global, row: &Row) -> bool {
    let mut are_told = write_is_told(alloc, row, row.stream.len());
    for taken in 0..row.stream.len() {
        are_told = are_told && write_is_told(alloc, row, taken);
    }
    are_told
}

#[test]
fn each_write_of_a_column_that_fails_is_a_failed_write(rt: HostRuntime) {
    for rows in TABLES {
        for row in rows {
            let are_told = writes_are_told(rt.alloc(), row);
            assert!(rt; are_told, "{}", row.name);
        }
    }
}

// Whether every refused growth is want of memory after a prefix of the stream.
fn growths_are_told(alloc: Global, row: &Row) -> bool {
    let Ok(room) = Vec::with_capacity(alloc, row.stream.len()) else {
        return true;
    };
    let found = packed(alloc, row, SOUND, room);
    is_whole(row, &found) || (is_stopped(&found, Cause::Memory) && is_prefix(row, &found))
}

#[test]
fn a_refused_growth_for_a_column_is_want_of_memory(rt: HostRuntime) {
    for rows in TABLES {
        for row in rows {
            let are_told = growths_are_told(rt.alloc(), row);
            assert!(rt; are_told, "{}", row.name);
        }
    }
}

// Whether a cause has this line, and this text without its place.
fn has_line(alloc: Global, cause: ColumnCause, line: &str, text: &str) -> bool {
    match format!(in alloc; "{cause}") {
        Ok(found) => found.as_str() == line && cause.text() == text,
        Err(_) => true,
    }
}

#[test]
fn causes_of_columns_have_lines(rt: HostRuntime) {
    let rows: [(ColumnReason, &str, &str); 4] = [
        (
            ColumnReason::NoSuchColumn,
            "record 7: no such column",
            "no such column",
        ),
        (
            ColumnReason::ColumnTwice,
            "record 7: column twice",
            "column twice",
        ),
        (
            ColumnReason::FieldCount,
            "record 7: wrong number of fields",
            "wrong number of fields",
        ),
        (
            ColumnReason::MissingValue,
            "record 7: missing value",
            "missing value",
        ),
    ];
    for (reason, line, text) in rows {
        let cause = ColumnCause::Csv { number: 7, reason };
        let has_line = has_line(rt.alloc(), cause, line, text);
        assert!(rt; has_line, "{line}");
    }
    let cause = ColumnCause::Pack(Cause::ReadDevice);
    let has_line = has_line(rt.alloc(), cause, "read failed", "read failed");
    assert!(rt; has_line, "a cause of pack");
}
