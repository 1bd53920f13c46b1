//! Columns of CSVs as digits: rows of another hand, with each read and each write failing in turn,
//! and with each growth refused in turn.
use std::alloc::Global;
use twkb_convert::Style;
use twkb_csv::Column;
use twkb_hex::{HexCause, HexFault, HexReason, HexReport, Packing, pack_hex};
use twkb_io::{Fuse, FuseEnd, Tap};
use twkb_polyline::PolyReason;
use twkb_tree::Limits;

// The number of bytes of a device that does not fail.
const AMPLE: u64 = 999_999;

// A CSV whose column is packed, the words for a missing value, of which empty ones change nothing,
// what is written, and why packing stops, if it does.
#[derive(Clone, Copy)]
struct Row {
    name: &'static str,
    input: &'static [u8],
    column: &'static [u8],
    precision: i8,
    delimiter: u8,
    style: Style,
    is_bare: bool,
    nulls: [&'static [u8]; 2],
    output: &'static [u8],
    stopped: Option<HexCause>,
}

const PLAIN: Row = Row {
    name: "",
    input: b"",
    column: b"line",
    precision: 5,
    delimiter: b',',
    style: Style::Full,
    is_bare: false,
    nulls: [b"", b""],
    output: b"",
    stopped: None,
};

const ROWS: [Row; 16] = [
    Row {
        name: "a column in its CSV",
        input: b"id,line,name\n1,_p~iF~ps|U_ulLnnqC_mqNvxq`@,Bern\n2,,\"a, \"\"b\"\"\nc\"\n3,AC,\n",
        output: b"id,line,name\n1,\\xa20323e7ce870ca8aa4ca0fcd50380813a03bfa4\
        bb0ba0fcd503ef9309c0ed1ab79643c0931f,Bern\n2,,\"a, \"\"b\"\"\nc\"\n3,\\xa2030704000200010402,\n",
        ..PLAIN
    },
    Row {
        name: "hex=bare: the digits alone",
        input: b"id,line\r\n1,\"AC\"\r\n\r\n2,\"\"",
        is_bare: true,
        output: b"id,line\n1,a2030704000200010402\n2,\n",
        ..PLAIN
    },
    Row {
        name: "words of --null and empty fields stay empty",
        input: b"\xef\xbb\xbfid;line;name\n1;NULL;NULL\n2;-;\"a;b\"\n3;\"\";x,y\n4;AC;-\n",
        delimiter: b';',
        nulls: [b"NULL", b"-"],
        output: b"id;line;name\n1;;NULL\n2;;\"a;b\"\n3;;x,y\n4;\\xa2030704000200010402;-\n",
        ..PLAIN
    },
    Row {
        name: "style plain, precision -8",
        input: b"line\nAC\n\n\"\"\n",
        precision: -8,
        style: Style::Plain,
        output: b"line\n\\xf200010402\n\"\"\n",
        ..PLAIN
    },
    Row {
        name: "the header is untouched",
        input: b"AC,\"q\"\"q\"\nAC,AC\n",
        column: b"AC",
        output: b"AC,\"q\"\"q\"\n\\xa2030704000200010402,AC\n",
        ..PLAIN
    },
    Row {
        name: "only a header",
        input: b"a,line",
        output: b"a,line\n",
        ..PLAIN
    },
    Row {
        name: "no such column",
        input: b"id,Line\n1,AC\n",
        stopped: Some(HexCause::Record {
            number: 1,
            reason: HexReason::NoColumn,
        }),
        ..PLAIN
    },
    Row {
        name: "the record before the refused one is not written, the header is",
        input: b"id,line\n1,AC\n2,AC\n3,A A\n4\n",
        output: b"id,line\n1,\\xa2030704000200010402\n",
        stopped: Some(HexCause::Record {
            number: 4,
            reason: HexReason::Polyline(1, PolyReason::BadChar),
        }),
        ..PLAIN
    },
    Row {
        name: "the first record is refused",
        input: b"id,line\n1,NULL\n",
        output: b"id,line\n",
        stopped: Some(HexCause::Record {
            number: 2,
            reason: HexReason::MissingValue,
        }),
        ..PLAIN
    },
    Row {
        name: "digits that are delimiters are quoted",
        input: b"xaline\n\"a\"aAC\n",
        delimiter: b'a',
        output: b"xaline\n\"a\"a\"\\xa2030704000200010402\"\n",
        ..PLAIN
    },
    Row {
        name: "a file in, a file out",
        input: b"line\nAC\n",
        output: b"line\n\\xa2030704000200010402\n",
        ..PLAIN
    },
    Row {
        name: "an empty CSV",
        input: b"",
        stopped: Some(HexCause::Record {
            number: 1,
            reason: HexReason::NoColumn,
        }),
        ..PLAIN
    },
    Row {
        name: "column twice",
        input: b"line,id,line\nAC,1,AC\n",
        stopped: Some(HexCause::Record {
            number: 1,
            reason: HexReason::ColumnTwice,
        }),
        ..PLAIN
    },
    Row {
        name: "fewer fields, the record before is not written",
        input: b"id,line\n1,AC\n2,AC\n3\n",
        output: b"id,line\n1,\\xa2030704000200010402\n",
        stopped: Some(HexCause::Record {
            number: 4,
            reason: HexReason::FieldCount,
        }),
        ..PLAIN
    },
    Row {
        name: "more fields",
        input: b"id,line\n1,NULL,2\n",
        output: b"id,line\n",
        stopped: Some(HexCause::Record {
            number: 2,
            reason: HexReason::FieldCount,
        }),
        ..PLAIN
    },
    Row {
        name: "a precision out of range, told at a value alone",
        input: b"id,line\n1,\n2,AC\n",
        precision: 8,
        output: b"id,line\n",
        stopped: Some(HexCause::Record {
            number: 3,
            reason: HexReason::BadPrecision,
        }),
        ..PLAIN
    },
];

// What was written of a row's output, and why packing stopped.
#[derive(Drop)]
struct Ended {
    written: Vec<u8>,
    sent: u64,
    stopped: Option<HexCause>,
}

// How many bytes were sent, and why a conversion stopped, if it did.
fn told(answer: Result<HexReport, HexFault>) -> (u64, Option<HexCause>) {
    match answer {
        Ok(report) => (report.bytes, None),
        Err(fault) => (fault.sent, Some(fault.cause)),
    }
}

// Packs the column of a row, whose CSV comes a byte a read and fails after `given`, into a room that
// is empty and fails after `taken`.
fn packed(alloc: Global, row: &Row, given: u64, taken: u64, room: Vec<u8>) -> Ended {
    let packing = Packing {
        column: Column {
            name: row.column,
            ids: None,
            precision: row.precision,
            nulls: row.nulls.as_slice(),
            delimiter: row.delimiter,
        },
        style: row.style,
        is_bare: row.is_bare,
    };
    let mut reader = Tap::new(Fuse::new(row.input, given, 1, FuseEnd::Fail, false));
    let mut writer = Tap::new(Fuse::new(room, taken, 1, FuseEnd::Fail, false));
    let limits = Limits::standard();
    let answer = pack_hex(alloc, &mut reader, &mut writer, &packing, &limits);
    let (sent, stopped) = told(answer);
    Ended {
        sent,
        stopped,
        written: writer.into_inner().into_inner(),
    }
}

// Whether a prefix of the row's output was written.
fn is_prefix(row: &Row, found: &Ended) -> bool {
    row.output.starts_with(&found.written) && found.sent == found.written.len() as u64
}

// Whether the row's output was written, and packing stopped as the row says.
fn is_whole(row: &Row, found: &Ended) -> bool {
    is_prefix(row, found) && found.written.len() == row.output.len() && found.stopped == row.stopped
}

fn is_packed(alloc: Global, row: &Row) -> bool {
    is_whole(row, &packed(alloc, row, AMPLE, AMPLE, Vec::new(alloc)))
}

#[test]
fn a_column_becomes_digits_in_its_csv(rt: HostRuntime) {
    for row in &ROWS {
        let is_packed = is_packed(rt.alloc(), row);
        assert!(rt; is_packed, "{}", row.name);
    }
}

// Whether a read that fails after this many bytes is told after a prefix of the output, or the row
// is refused before it.
fn read_is_told(alloc: Global, row: &Row, given: u64) -> bool {
    let found = packed(alloc, row, given, AMPLE, Vec::new(alloc));
    is_prefix(row, &found) && (found.stopped == Some(HexCause::ReadDevice) || is_whole(row, &found))
}

fn reads_are_told(alloc: Global, row: &Row) -> bool {
    let mut are_told = true;
    for given in 0..row.input.len() {
        are_told = are_told && read_is_told(alloc, row, given as u64);
    }
    are_told
}

#[test]
fn each_failed_read_of_a_csv_is_told_after_a_prefix(rt: HostRuntime) {
    for row in &ROWS {
        let are_told = reads_are_told(rt.alloc(), row);
        assert!(rt; are_told, "{}", row.name);
    }
}

// Whether a write that fails after this many bytes is told, and these were written.
fn write_is_told(alloc: Global, row: &Row, taken: u64) -> bool {
    let found = packed(alloc, row, AMPLE, taken, Vec::new(alloc));
    is_prefix(row, &found) && found.sent == taken && found.stopped == Some(HexCause::WriteDevice)
}

fn writes_are_told(alloc: Global, row: &Row) -> bool {
    let mut are_told = true;
    for taken in 0..row.output.len() {
        are_told = are_told && write_is_told(alloc, row, taken as u64);
    }
    are_told
}

#[test]
fn each_failed_write_is_told_after_the_bytes_taken(rt: HostRuntime) {
    for row in &ROWS {
        let are_told = writes_are_told(rt.alloc(), row);
        assert!(rt; are_told, "{}", row.name);
    }
}

// Whether every refused growth is want of memory after a prefix of the output.
fn growths_are_told(alloc: Global, row: &Row) -> bool {
    let Ok(room) = Vec::with_capacity(alloc, row.output.len()) else {
        return true;
    };
    let found = packed(alloc, row, AMPLE, AMPLE, room);
    is_whole(row, &found) || (found.stopped == Some(HexCause::Memory) && is_prefix(row, &found))
}

#[test]
fn a_refused_growth_is_want_of_memory_after_a_prefix(rt: HostRuntime) {
    for row in &ROWS {
        let are_told = growths_are_told(rt.alloc(), row);
        assert!(rt; are_told, "{}", row.name);
    }
}
