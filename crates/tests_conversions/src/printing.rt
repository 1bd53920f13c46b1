//! What is printed: rows by both printers, numbers, the texts of faults and causes, and the line
//! and the status of each cause.
use std::alloc::{AllocError, Global};
use std::fmt::Display;
use std::io::Read;
use twkb_command::{print_line, status};
use twkb_convert::{BlobReason, Cause, ConvertFault};
use twkb_geom::{Flat, Geometry, Limits, Rows, Work};
use twkb_io::Tap;
use twkb_polyline::PolyReason;
use twkb_table::{
    RowReason, TableFault, TableReader, header_text, push_decimal, put_flat_rows, rows_text,
};

// ---- the two printers of rows, one for geometries by the writer of `csv` and one for flat forms,
// on one table

// A table of all kinds, with empty ones, ids and precisions at both ends of their ranges, and
// nested collections.
const TABLE: &[u8] =
    b"depth,kind,id,precision,polyline\n0,point,,0,AC\n0,point,,-8,\n0,linestring,,7,AAGG\n\
    0,polygon,,0,\n1,ring,,,???GGF\n1,ring,,,\n0,multipoint,,0,\n\
    1,point,-9223372036854775808,,AA\n1,point,9223372036854775807,,AC\n0,multilinestring,,0,\n\
    1,linestring,0,,AAGG\n1,linestring,-1,,\n0,multipolygon,,0,\n1,polygon,3,,\n2,ring,,,AA\n\
    2,ring,,,\n1,polygon,44,,\n0,collection,,0,\n1,collection,12,1,\n2,point,7,2,AA\n\
    2,multipoint,-3,3,\n3,point,,,AC\n2,collection,8,4,\n1,linestring,10,0,AAGG\n";

// Appends rows that the writer of `csv` gave.
fn put_records(lines: Result<Vec<u8>, AllocError>, rows: &mut Vec<u8>) -> bool {
    match lines {
        Ok(lines) => rows.extend_from_slice(&lines).is_ok(),
        Err(_) => false,
    }
}

// Appends the rows of a form directly.
fn put_form(form: Result<Flat, AllocError>, rows: &mut Vec<u8>) -> bool {
    match form {
        Ok(flat) => put_flat_rows(&Rows { flat }, &mut Work::new(), rows).is_ok(),
        Err(_) => false,
    }
}

// Appends the rows of a geometry by both printers.
fn put_both(
    alloc: Global,
    geometry: &Geometry,
    records: &mut Vec<u8>,
    direct: &mut Vec<u8>,
) -> bool {
    if !geometry.within(&Limits::largest()) {
        return false;
    }
    let are_written = put_records(rows_text(alloc, geometry), records);
    are_written & put_form(Flat::from_geometry(alloc, geometry), direct)
}

// Appends the rows of the geometries of a short table by both printers. Returns whether its end
// was reached with nothing refused.
fn put_all<R: Read>(
    alloc: Global,
    reader: &mut TableReader<'_, R>,
    records: &mut Vec<u8>,
    direct: &mut Vec<u8>,
) -> bool {
    let mut are_put = true;
    for _ in 0..64usize {
        match reader.next() {
            Ok(Some(geometry)) => {
                are_put = are_put & put_both(alloc, &geometry, records, direct);
                drop(geometry);
            }
            Ok(None) => return are_put,
            Err(_) => return false,
        }
    }
    false
}

// Whether both print the rows of the table; nothing if memory was refused.
fn prints_alike(alloc: Global) -> Option<bool> {
    let mut tap = Tap::new(TABLE);
    let mut reader = TableReader::new(alloc, &mut tap, Limits::standard());
    let mut records = Vec::new(alloc);
    let mut direct = Vec::new(alloc);
    if !put_all(alloc, &mut reader, &mut records, &mut direct) {
        return None;
    }
    let rows = TABLE.strip_prefix(header_text());
    Some((rows == Some(records.as_slice())) & (rows == Some(direct.as_slice())))
}

#[test]
fn the_writer_of_csv_and_the_direct_printer_give_the_same_rows(rt: HostRuntime) {
    assert!(rt; prints_alike(rt.alloc()) == Some(true));
}

// Run with each growth refused in turn (`make hostile`) too: no wrong rows are given.
#[test]
fn a_printer_that_is_refused_a_growth_says_so(rt: HostRuntime) {
    assert!(rt; prints_alike(rt.alloc()) != Some(false));
}

// ---- numbers

// Whether two numbers are printed as expected, one after the other.
fn prints(alloc: Global) -> bool {
    let mut text = Vec::new(alloc);
    push_decimal(&mut text, -1).is_ok()
        && push_decimal(&mut text, i64::MIN).is_ok()
        && text.as_slice() == b"-1-9223372036854775808".as_slice()
}

#[test]
fn numbers_are_printed_as_canonical_decimals(rt: HostRuntime) {
    assert!(rt; prints(rt.alloc()));
}

// ---- the texts of faults and causes

// Whether a fault has this text.
fn tells<D: Display>(alloc: Global, fault: &D, text: &str) -> bool {
    match fault.to_string(alloc) {
        Ok(told) => told.as_str() == text,
        Err(_) => false,
    }
}

// Whether each fault has its text.
fn all_tell<D: Display>(alloc: Global, rows: &[(D, &str)]) -> bool {
    let mut are_told = true;
    for (fault, text) in rows {
        are_told = are_told && tells(alloc, fault, *text);
    }
    are_told
}

const BAD_KIND: Cause = Cause::Row {
    number: 3,
    reason: RowReason::BadKind,
};

const BAD_SIZE: Cause = Cause::Blob {
    offset: 12,
    reason: BlobReason::SizeMismatch,
};

const TEXTS_OF_CAUSES: [(Cause, &str); 7] = [
    (BAD_KIND, "record 3: unknown kind"),
    (BAD_SIZE, "byte 12: size mismatch"),
    (Cause::ReadDevice, "read failed"),
    (Cause::WriteDevice, "write failed"),
    (Cause::Memory, "out of memory"),
    (Cause::TooLong, "input or output too long"),
    (Cause::TooManyRecords, "too many records"),
];

const STOP: ConvertFault = ConvertFault {
    done: 7,
    sent: 9,
    taken: 12,
    cause: BAD_SIZE,
};

const FIRST: TableFault = TableFault::At {
    number: 1,
    reason: RowReason::BadHeader,
};

const LAST: TableFault = TableFault::At {
    number: 4_294_967_295,
    reason: RowReason::Polyline(4, PolyReason::Half),
};

const FAULTS: [(TableFault, &str); 6] = [
    (TableFault::Memory, "out of memory"),
    (TableFault::Source, "the table could not be read"),
    (TableFault::TooManyRecords, "too many records"),
    (TableFault::Spent, "the table was refused before"),
    (FIRST, "record 1: bad header"),
    (
        LAST,
        "record 4294967295: polyline at 4: latitude without longitude",
    ),
];

// Whether causes have their texts, and a fault has that of its cause.
fn conversions_tell(alloc: Global) -> bool {
    all_tell(alloc, &TEXTS_OF_CAUSES) && tells(alloc, &STOP, "byte 12: size mismatch")
}

// Whether faults of tables have their texts.
fn tables_tell(alloc: Global) -> bool {
    all_tell(alloc, &FAULTS)
}

#[test]
fn causes_and_faults_have_their_texts(rt: HostRuntime) {
    assert!(rt; conversions_tell(rt.alloc()));
    assert!(rt; tables_tell(rt.alloc()));
}

// ---- the line and the status of causes, as docs/FORMATS.md has them. Those of other records and
// items are rows of the program `vector_runner`.

// A cause, its status and its line.
#[derive(Clone, Copy)]
struct Told {
    cause: Cause,
    status: u8,
    line: &'static [u8],
}

const RECORD: Cause = Cause::Row {
    number: 4_294_967_295,
    reason: RowReason::TooManyNodes,
};

const POLYLINE: Cause = Cause::Row {
    number: 1,
    reason: RowReason::Polyline(6, PolyReason::TooMany),
};

const ITEM: Cause = Cause::Blob {
    offset: u64::MAX,
    reason: BlobReason::SizeMismatch,
};

const READ: Told = Told {
    cause: Cause::ReadDevice,
    status: 3,
    line: b"polytwkb: read failed\n",
};

// The last record and the last byte, and a reason that no row of the program `vector_runner` has; then
// causes that have no reason.
const CAUSES: [Told; 8] = [
    Told {
        cause: RECORD,
        status: 1,
        line: b"polytwkb: record 4294967295: too many rows in one geometry\n",
    },
    Told {
        cause: POLYLINE,
        status: 1,
        line: b"polytwkb: record 1: polyline at 6: too many points\n",
    },
    Told {
        cause: ITEM,
        status: 1,
        line: b"polytwkb: byte 18446744073709551615: size mismatch\n",
    },
    READ,
    Told {
        cause: Cause::WriteDevice,
        line: b"polytwkb: write failed\n",
        ..READ
    },
    Told {
        cause: Cause::Memory,
        status: 4,
        line: b"polytwkb: out of memory\n",
    },
    Told {
        cause: Cause::TooLong,
        status: 1,
        line: b"polytwkb: input or output too long\n",
    },
    Told {
        cause: Cause::TooManyRecords,
        status: 1,
        line: b"polytwkb: too many records\n",
    },
];

// Whether a cause has this status and this line.
fn is_told(alloc: Global, row: &Told) -> bool {
    let mut errors = Tap::new(Vec::new(alloc));
    print_line(&mut errors, row.cause);
    errors.into_inner().as_slice() == row.line && status(&row.cause) == row.status
}

#[test]
fn each_cause_has_its_line(rt: HostRuntime) {
    for row in &CAUSES {
        let is_right = is_told(rt.alloc(), row);
        assert!(rt; is_right, "{} bytes", row.line.len());
    }
}
