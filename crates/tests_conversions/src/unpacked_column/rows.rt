//! Streams of linestrings with the columns that they are unpacked to, and why unpacking stops.
use twkb_convert::{BlobReason, Cause};
use twkb_rest::{LineReason, UnpackCause};

/// A stream, the column's name, the delimiter, the text of the column, the number of blobs in it and
/// of their bytes, and why the unpacking stops, if it does.
#[derive(Clone, Copy)]
pub struct Row {
    pub name: &'static str,
    pub input: &'static [u8],
    pub column: &'static [u8],
    pub delimiter: u8,
    pub output: &'static [u8],
    pub done: u64,
    pub taken: u64,
    pub stopped: Option<UnpackCause>,
}

const PLAIN: Row = Row {
    name: "",
    input: b"",
    column: b"line",
    delimiter: b',',
    output: b"line\n",
    done: 0,
    taken: 0,
    stopped: None,
};

// The line of the example of Google at precision 5, its polyline, and a line without points.
const STREAM: &[u8] = b"\xa2\x03#\xe7\xce\x87\x0c\xa8\xaaL\xa0\xfc\xd5\x03\x80\x81:\x03\xbf\xa4\
    \xbb\x0b\xa0\xfc\xd5\x03\xef\x93\t\xc0\xed\x1a\xb7\x96C\xc0\x93\x1f\xa2\x12\x00";

/// The rows of another hand, and some more.
pub const ROWS: [Row; 16] = [
    Row {
        name: "a column out",
        input: STREAM,
        output: b"line\n_p~iF~ps|U_ulLnnqC_mqNvxq`@\n\"\"\n",
        done: 2,
        taken: 41,
        ..PLAIN
    },
    Row {
        name: "a column out of nothing",
        ..PLAIN
    },
    Row {
        name: "a delimiter that polylines have",
        input: STREAM,
        delimiter: b'|',
        output: b"line\n\"_p~iF~ps|U_ulLnnqC_mqNvxq`@\"\n\"\"\n",
        done: 2,
        taken: 41,
        ..PLAIN
    },
    Row {
        name: "no linestring",
        input: b"\xa2\x12\x00\x01\x02\x02\x04\x02",
        output: b"line\n\"\"\n",
        done: 1,
        taken: 3,
        stopped: Some(UnpackCause::Line {
            offset: 3,
            reason: LineReason::NoLinestring,
        }),
        ..PLAIN
    },
    Row {
        name: "a stream with a fault, as a column",
        input: b"\xa2\x03#\xe7\xce\x87\x0c\xa8\xaaL\xa0\xfc\xd5\x03\x80\x81:\x03\xbf\xa4\
        \xbb\x0b\xa0\xfc\xd5\x03\xef\x93\t\xc0\xed\x1a\xb7\x96C\xc0\x93",
        stopped: Some(UnpackCause::Stream(Cause::Blob {
            offset: 35,
            reason: BlobReason::Truncated,
        })),
        ..PLAIN
    },
    Row {
        name: "a stream that is cut after a blob",
        input: b"\xa2\x12\x00\xa2",
        output: b"line\n\"\"\n",
        done: 1,
        taken: 3,
        stopped: Some(UnpackCause::Stream(Cause::Blob {
            offset: 4,
            reason: BlobReason::Truncated,
        })),
        ..PLAIN
    },
    Row {
        name: "another precision",
        input: b"\xa2\x12\x00\xa2\x12\x00\xc2\x12\x00",
        output: b"line\n\"\"\n\"\"\n",
        done: 2,
        taken: 6,
        stopped: Some(UnpackCause::Line {
            offset: 6,
            reason: LineReason::AnotherPrecision,
        }),
        ..PLAIN
    },
    Row {
        name: "no linestring goes before another precision",
        input: b"\xa2\x12\x00\xc1\x12\x00",
        output: b"line\n\"\"\n",
        done: 1,
        taken: 3,
        stopped: Some(UnpackCause::Line {
            offset: 3,
            reason: LineReason::NoLinestring,
        }),
        ..PLAIN
    },
    Row {
        name: "the first blob is a point",
        input: b"\x01\x02\x02\x04\x02",
        stopped: Some(UnpackCause::Line {
            offset: 0,
            reason: LineReason::NoLinestring,
        }),
        ..PLAIN
    },
    Row {
        name: "a multilinestring is no linestring",
        input: b"\xa5\x12\x00",
        stopped: Some(UnpackCause::Line {
            offset: 0,
            reason: LineReason::NoLinestring,
        }),
        ..PLAIN
    },
    Row {
        name: "precision -8, another than 7",
        input: b"\xf2\x12\x00\xf2\x00\x01\x04\x02\xe2\x12\x00",
        output: b"line\n\"\"\nAC\n",
        done: 2,
        taken: 8,
        stopped: Some(UnpackCause::Line {
            offset: 8,
            reason: LineReason::AnotherPrecision,
        }),
        ..PLAIN
    },
    Row {
        name: "a name with quotes",
        column: b"the \"line\"",
        output: b"\"the \"\"line\"\"\"\n",
        ..PLAIN
    },
    Row {
        name: "a name with the delimiter",
        column: b"a;b",
        delimiter: b';',
        output: b"\"a;b\"\n",
        ..PLAIN
    },
    Row {
        name: "a name with a comma, not the delimiter",
        column: b"a,b",
        delimiter: b'\t',
        output: b"a,b\n",
        ..PLAIN
    },
    Row {
        name: "a name with line ends",
        column: b"a\r\nb",
        output: b"\"a\r\nb\"\n",
        ..PLAIN
    },
    Row {
        name: "an empty name",
        column: b"",
        input: b"\xa2\x12\x00",
        output: b"\"\"\n\"\"\n",
        done: 1,
        taken: 3,
        ..PLAIN
    },
];
