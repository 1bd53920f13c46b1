//! CSVs with the streams that a column of them is packed to, and why packing stops.
use twkb_column::{ColumnCause, ColumnReason};
use twkb_convert::{Cause, RowReason, Style};
use twkb_polyline::PolyReason;

/// A CSV whose column `line` is packed, the column of ids, the words for a missing polyline, of which
/// empty ones change nothing, the stream, the rest of the CSV if it is written beside the stream, the
/// numbers of its blobs and of the records that these are, and why packing stops, if it does.
#[derive(Clone, Copy)]
pub struct Row {
    pub name: &'static str,
    pub input: &'static [u8],
    pub ids: Option<&'static [u8]>,
    pub precision: i8,
    pub delimiter: u8,
    pub style: Style,
    pub nulls: [&'static [u8]; 4],
    pub stream: &'static [u8],
    pub rest: &'static [u8],
    pub done: u64,
    pub taken: u64,
    pub stopped: Option<ColumnCause>,
}

/// A row of an empty CSV.
pub const PLAIN: Row = Row {
    name: "",
    input: b"",
    ids: None,
    precision: 5,
    delimiter: b',',
    style: Style::Full,
    nulls: [b"", b"", b"", b""],
    stream: b"",
    rest: b"",
    done: 0,
    taken: 0,
    stopped: None,
};

/// Rows of another hand, and some beside them.
pub const ROWS: [Row; 24] = [
    Row {
        name: "column of a CSV",
        input: b"id,line,name\n1,_p~iF~ps|U_ulLnnqC_mqNvxq`@,Bern\n2,,\"a, \"\"b\"\"\nc\"\
        \n",
        stream: b"\xa2\x03#\xe7\xce\x87\x0c\xa8\xaaL\xa0\xfc\xd5\x03\x80\x81:\x03\xbf\xa4\
        \xbb\x0b\xa0\xfc\xd5\x03\xef\x93\t\xc0\xed\x1a\xb7\x96C\xc0\x93\x1f\xa2\x12\x00",
        rest: b"id,line,name\n1,,Bern\n2,,\"a, \"\"b\"\"\nc\"\n",
        done: 2,
        taken: 3,
        ..PLAIN
    },
    Row {
        name: "column and rest",
        input: b"id,line,name\r\n1,\"_p~iF~ps|U_ulLnnqC_mqNvxq`@\",Bern\r\n\r\n\"2\",,\"a\
        , \"\"b\"\"\r\nc\"",
        stream: b"\xa2\x03#\xe7\xce\x87\x0c\xa8\xaaL\xa0\xfc\xd5\x03\x80\x81:\x03\xbf\xa4\
        \xbb\x0b\xa0\xfc\xd5\x03\xef\x93\t\xc0\xed\x1a\xb7\x96C\xc0\x93\x1f\xa2\x12\x00",
        rest: b"id,line,name\n1,,Bern\n2,,\"a, \"\"b\"\"\r\nc\"\n",
        done: 2,
        taken: 3,
        ..PLAIN
    },
    Row {
        name: "semicolons, a byte order mark, a word for what is missing",
        input: b"\xef\xbb\xbfid;line;name\n12;_p~iF~ps|U_ulLnnqC_mqNvxq`@;Bern, Bahnhof\n\
        14;NULL;\n15;-;a;b\n",
        delimiter: b';',
        nulls: [b"NULL", b"-", b"", b""],
        stream: b"\xa2\x03#\xe7\xce\x87\x0c\xa8\xaaL\xa0\xfc\xd5\x03\x80\x81:\x03\xbf\xa4\
        \xbb\x0b\xa0\xfc\xd5\x03\xef\x93\t\xc0\xed\x1a\xb7\x96C\xc0\x93\x1f",
        rest: b"id;line;name\n12;;Bern, Bahnhof\n",
        done: 1,
        taken: 2,
        stopped: Some(ColumnCause::Csv {
            number: 4,
            reason: ColumnReason::FieldCount,
        }),
        ..PLAIN
    },
    Row {
        name: "semicolons, words for what is missing, rest",
        input: b"\xef\xbb\xbfid;line;name\n12;_p~iF~ps|U_ulLnnqC_mqNvxq`@;Bern, Bahnhof\n\
        14;NULL;\n15;-;\"a;b\"\n",
        delimiter: b';',
        nulls: [b"NULL", b"-", b"", b""],
        stream: b"\xa2\x03#\xe7\xce\x87\x0c\xa8\xaaL\xa0\xfc\xd5\x03\x80\x81:\x03\xbf\xa4\
        \xbb\x0b\xa0\xfc\xd5\x03\xef\x93\t\xc0\xed\x1a\xb7\x96C\xc0\x93\x1f\xa2\x12\x00\
        \xa2\x12\x00",
        rest: b"id;line;name\n12;;Bern, Bahnhof\n14;;\n15;;\"a;b\"\n",
        done: 3,
        taken: 4,
        ..PLAIN
    },
    Row {
        name: "tabs",
        input: b"line\tx\nAC\t\"a\tb\"\n",
        delimiter: b'\t',
        stream: b"\xa2\x03\x07\x04\x00\x02\x00\x01\x04\x02",
        rest: b"line\tx\n\t\"a\tb\"\n",
        done: 1,
        taken: 2,
        ..PLAIN
    },
    Row {
        name: "a delimiter that polylines have",
        input: b"x|line\n1|\"_p~iF~ps|U_ulLnnqC_mqNvxq`@\"\n",
        delimiter: b'|',
        stream: b"\xa2\x03#\xe7\xce\x87\x0c\xa8\xaaL\xa0\xfc\xd5\x03\x80\x81:\x03\xbf\xa4\
        \xbb\x0b\xa0\xfc\xd5\x03\xef\x93\t\xc0\xed\x1a\xb7\x96C\xc0\x93\x1f",
        rest: b"x|line\n1|\n",
        done: 1,
        taken: 2,
        ..PLAIN
    },
    Row {
        name: "one column, empty lines are no records",
        input: b"line\nAC\n\n\"\"\n",
        stream: b"\xa2\x03\x07\x04\x00\x02\x00\x01\x04\x02\xa2\x12\x00",
        rest: b"line\n\"\"\n\"\"\n",
        done: 2,
        taken: 3,
        ..PLAIN
    },
    Row {
        name: "only a header",
        input: b"a,line",
        rest: b"a,line\n",
        ..PLAIN
    },
    Row {
        name: "no such column",
        input: b"id,Line\n1,AC\n",
        stopped: Some(ColumnCause::Csv {
            number: 1,
            reason: ColumnReason::NoSuchColumn,
        }),
        ..PLAIN
    },
    Row {
        name: "an empty CSV",
        input: b"",
        stopped: Some(ColumnCause::Csv {
            number: 1,
            reason: ColumnReason::NoSuchColumn,
        }),
        ..PLAIN
    },
    Row {
        name: "column twice",
        input: b"line,id,line\nAC,1,AC\n",
        stopped: Some(ColumnCause::Csv {
            number: 1,
            reason: ColumnReason::ColumnTwice,
        }),
        ..PLAIN
    },
    Row {
        name: "fewer fields: as pack, the record before is not written",
        input: b"id,line\n1,AC\n2,AC\n3\n",
        stream: b"\xa2\x03\x07\x04\x00\x02\x00\x01\x04\x02",
        rest: b"id,line\n1,\n",
        done: 1,
        taken: 2,
        stopped: Some(ColumnCause::Csv {
            number: 4,
            reason: ColumnReason::FieldCount,
        }),
        ..PLAIN
    },
    Row {
        name: "missing value",
        input: b"id,line\n1,AC\n2,NULL\n",
        rest: b"id,line\n",
        stopped: Some(ColumnCause::Csv {
            number: 3,
            reason: ColumnReason::MissingValue,
        }),
        ..PLAIN
    },
    Row {
        name: "a bad polyline",
        input: b"id,line\n1,AC\n2,AC\n3,A A\n4\n",
        stream: b"\xa2\x03\x07\x04\x00\x02\x00\x01\x04\x02",
        rest: b"id,line\n1,\n",
        done: 1,
        taken: 2,
        stopped: Some(ColumnCause::Pack(Cause::Row {
            number: 4,
            reason: RowReason::Polyline(1, PolyReason::BadChar),
        })),
        ..PLAIN
    },
    Row {
        name: "precision -8 with the value apart, style plain",
        input: b"line\nAC\n",
        precision: -8,
        style: Style::Plain,
        stream: b"\xf2\x00\x01\x04\x02",
        rest: b"line\n\"\"\n",
        done: 1,
        taken: 2,
        ..PLAIN
    },
    Row {
        name: "missing value \\N",
        input: b"line\n\\N\n",
        rest: b"line\n",
        stopped: Some(ColumnCause::Csv {
            number: 2,
            reason: ColumnReason::MissingValue,
        }),
        ..PLAIN
    },
    Row {
        name: "missing value NaN",
        input: b"line\nNaN\n",
        rest: b"line\n",
        stopped: Some(ColumnCause::Csv {
            number: 2,
            reason: ColumnReason::MissingValue,
        }),
        ..PLAIN
    },
    Row {
        name: "missing value NONE",
        input: b"line\nNONE\n",
        rest: b"line\n",
        stopped: Some(ColumnCause::Csv {
            number: 2,
            reason: ColumnReason::MissingValue,
        }),
        ..PLAIN
    },
    Row {
        name: "missing words named",
        input: b"line,k\n\\N,1\nNaN,2\n[NULL],3\nx,4\n\"\",5\n",
        nulls: [b"\\N", b"NaN", b"[NULL]", b"x"],
        stream: b"\xa2\x12\x00\xa2\x12\x00\xa2\x12\x00\xa2\x12\x00\xa2\x12\x00",
        rest: b"line,k\n,1\n,2\n,3\n,4\n,5\n",
        done: 5,
        taken: 6,
        ..PLAIN
    },
    Row {
        name: "a precision out of range is told at the first record of a polyline",
        input: b"line\nAC\n",
        precision: 8,
        rest: b"line\n",
        stopped: Some(ColumnCause::Pack(Cause::Row {
            number: 2,
            reason: RowReason::BadPrecision,
        })),
        ..PLAIN
    },
    Row {
        name: "a bad polyline goes before a record after it",
        input: b"id,line\n1,A\n2\n",
        rest: b"id,line\n",
        stopped: Some(ColumnCause::Pack(Cause::Row {
            number: 2,
            reason: RowReason::Polyline(1, PolyReason::Half),
        })),
        ..PLAIN
    },
    Row {
        name: "more fields go before a missing value",
        input: b"id,line\n1,NULL,\n",
        rest: b"id,line\n",
        stopped: Some(ColumnCause::Csv {
            number: 2,
            reason: ColumnReason::FieldCount,
        }),
        ..PLAIN
    },
    Row {
        name: "an absent column goes before all records",
        input: b"id\n1,2\nNULL\n",
        stopped: Some(ColumnCause::Csv {
            number: 1,
            reason: ColumnReason::NoSuchColumn,
        }),
        ..PLAIN
    },
    Row {
        name: "a column that is there three times",
        input: b"line,line,line\n1\n",
        stopped: Some(ColumnCause::Csv {
            number: 1,
            reason: ColumnReason::ColumnTwice,
        }),
        ..PLAIN
    },
];
