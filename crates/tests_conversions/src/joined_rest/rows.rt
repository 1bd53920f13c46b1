//! Streams of linestrings and rests with the CSVs that they are joined to, and why joining stops.
use twkb_convert::{BlobReason, Cause};
use twkb_rest::{JoinCause, LineReason, RestReason, UnpackCause};

/// A stream, a rest, the column's name, the delimiter, the text of the CSV, the number of blobs in it
/// and of their bytes, and why the joining stops, if it does.
#[derive(Clone, Copy)]
pub struct Row {
    pub name: &'static str,
    pub input: &'static [u8],
    pub rest: &'static [u8],
    pub delimiter: u8,
    pub output: &'static [u8],
    pub done: u64,
    pub taken: u64,
    pub stopped: Option<JoinCause>,
}

const PLAIN: Row = Row {
    name: "",
    input: b"",
    rest: b"",
    delimiter: b',',
    output: b"",
    done: 0,
    taken: 0,
    stopped: None,
};

// The line of the example of Google at precision 5, and a line without points.
const STREAM: &[u8] = b"\xa2\x03#\xe7\xce\x87\x0c\xa8\xaaL\xa0\xfc\xd5\x03\x80\x81:\x03\xbf\xa4\
    \xbb\x0b\xa0\xfc\xd5\x03\xef\x93\t\xc0\xed\x1a\xb7\x96C\xc0\x93\x1f\xa2\x12\x00";

/// The rows of another hand, and some more.
pub const ROWS: [Row; 17] = [
    Row {
        name: "a column out with its rest",
        input: STREAM,
        rest: b"id,line,name\r\n1,,Bern\r\n2,old,\"a, \"\"b\"\"\nc\"",
        output: b"id,line,name\n1,_p~iF~ps|U_ulLnnqC_mqNvxq`@,Bern\n2,,\"a, \"\"b\"\"\nc\"\n",
        done: 2,
        taken: 41,
        ..PLAIN
    },
    Row {
        name: "rest without the column",
        input: b"\xa2\x12\x00",
        rest: b"id\n1\n",
        stopped: Some(JoinCause::Rest {
            number: 1,
            reason: RestReason::NoSuchColumn,
        }),
        ..PLAIN
    },
    Row {
        name: "rest with the column twice",
        input: b"\xa2\x12\x00",
        rest: b"line,line\n",
        stopped: Some(JoinCause::Rest {
            number: 1,
            reason: RestReason::ColumnTwice,
        }),
        ..PLAIN
    },
    Row {
        name: "fewer records",
        input: b"\xa2\x12\x00\xa2\x12\x00",
        rest: b"id,line\n1,\n",
        output: b"id,line\n1,\n",
        done: 1,
        taken: 3,
        stopped: Some(JoinCause::NoRecord { offset: 3 }),
        ..PLAIN
    },
    Row {
        name: "more records",
        input: b"\xa2\x12\x00",
        rest: b"id,line\n1,\n2\n",
        output: b"id,line\n1,\n",
        done: 1,
        taken: 3,
        stopped: Some(JoinCause::Rest {
            number: 3,
            reason: RestReason::NoBlob,
        }),
        ..PLAIN
    },
    Row {
        name: "a record of the rest with a field too many",
        input: b"\xa2\x12\x00\xa2\x12\x00",
        rest: b"id,line\n1,\n2,,\n",
        output: b"id,line\n1,\n",
        done: 1,
        taken: 3,
        stopped: Some(JoinCause::Rest {
            number: 3,
            reason: RestReason::FieldCount,
        }),
        ..PLAIN
    },
    Row {
        name: "a blob that is no linestring goes before a record that is absent",
        input: b"\xa2\x12\x00\x01\x02\x02\x04\x02",
        rest: b"line\n\"\"\n",
        output: b"line\n\"\"\n",
        done: 1,
        taken: 3,
        stopped: Some(JoinCause::Column(UnpackCause::Line {
            offset: 3,
            reason: LineReason::NoLinestring,
        })),
        ..PLAIN
    },
    Row {
        name: "another precision",
        input: b"\xa2\x12\x00\xc2\x12\x00",
        rest: b"line\n\"\"\n\"\"\n",
        output: b"line\n\"\"\n",
        done: 1,
        taken: 3,
        stopped: Some(JoinCause::Column(UnpackCause::Line {
            offset: 3,
            reason: LineReason::AnotherPrecision,
        })),
        ..PLAIN
    },
    Row {
        name: "a blob that is cut goes before its record",
        input: b"\xa2\x12\x00\xa2",
        rest: b"line,k\n,1\n,2,\n",
        output: b"line,k\n,1\n",
        done: 1,
        taken: 3,
        stopped: Some(JoinCause::Column(UnpackCause::Stream(Cause::Blob {
            offset: 4,
            reason: BlobReason::Truncated,
        }))),
        ..PLAIN
    },
    Row {
        name: "an empty rest",
        input: b"\xa2\x12\x00",
        stopped: Some(JoinCause::Rest {
            number: 1,
            reason: RestReason::NoSuchColumn,
        }),
        ..PLAIN
    },
    Row {
        name: "an absent column goes before a bad stream",
        input: b"\xff",
        rest: b"Line\n",
        stopped: Some(JoinCause::Rest {
            number: 1,
            reason: RestReason::NoSuchColumn,
        }),
        ..PLAIN
    },
    Row {
        name: "nothing but a header",
        rest: b"a,line",
        output: b"a,line\n",
        ..PLAIN
    },
    Row {
        name: "a byte order mark, semicolons, old polylines",
        input: b"\xa2\x03\x07\x04\x00\x02\x00\x01\x04\x02\xa2\x12\x00",
        rest: b"\xef\xbb\xbfid;line\n1;_ibE_seK\n\"a;b\";AC\n",
        delimiter: b';',
        output: b"id;line\n1;AC\n\"a;b\";\n",
        done: 2,
        taken: 13,
        ..PLAIN
    },
    Row {
        name: "a delimiter that polylines have",
        input: STREAM,
        rest: b"x|line\n1|\n2|\n",
        delimiter: b'|',
        output: b"x|line\n1|\"_p~iF~ps|U_ulLnnqC_mqNvxq`@\"\n2|\n",
        done: 2,
        taken: 41,
        ..PLAIN
    },
    Row {
        name: "the column alone",
        input: b"\xa2\x03\x07\x04\x00\x02\x00\x01\x04\x02\xa2\x12\x00",
        rest: b"line\n\"\"\n\"\"\n",
        output: b"line\nAC\n\"\"\n",
        done: 2,
        taken: 13,
        ..PLAIN
    },
    Row {
        name: "records without a blob at all",
        rest: b"line,k\n,1\n,2\n",
        output: b"line,k\n",
        stopped: Some(JoinCause::Rest {
            number: 2,
            reason: RestReason::NoBlob,
        }),
        ..PLAIN
    },
    Row {
        name: "a short record",
        input: b"\xa2\x12\x00",
        rest: b"line,k\n1\n",
        output: b"line,k\n",
        stopped: Some(JoinCause::Rest {
            number: 2,
            reason: RestReason::FieldCount,
        }),
        ..PLAIN
    },
];
