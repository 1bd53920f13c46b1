//! CSVs whose column is packed with a column of ids, into one multilinestring.
use super::rows::{PLAIN, Row};
use twkb_column::{ColumnCause, ColumnReason};
use twkb_convert::{Cause, RowReason};
use twkb_polyline::PolyReason;

/// Rows of another hand, and some beside them.
pub const ROWS: [Row; 12] = [
    Row {
        name: "ids: one multilinestring",
        input: b"id,line,name\n12,_p~iF~ps|U_ulLnnqC_mqNvxq`@,Bern\n-7,AC,\n\
        9223372036854775807,,\"a,b\"\n",
        ids: Some(b"id"),
        stream: b"\xa5\x079\xe7\xce\x87\x0c\xec\xce\x87\x0c\x02\x9e\xfd\x8f\x04\x03\x18\r\
        \xfe\xff\xff\xff\xff\xff\xff\xff\xff\x01\x03\xbf\xa4\xbb\x0b\xa0\xfc\xd5\x03\xef\x93\
        \t\xc0\xed\x1a\xb7\x96C\xc0\x93\x1f\x01\xec\xce\x87\x0c\x9d\xfd\x8f\x04\x00",
        done: 1,
        taken: 4,
        ..PLAIN
    },
    Row {
        name: "ids: only a header is a multilinestring without lines",
        input: b"id,line\n",
        ids: Some(b"id"),
        stream: b"\xa5\x12\x00",
        done: 1,
        taken: 1,
        ..PLAIN
    },
    Row {
        name: "ids: a bad id",
        input: b"line,id\nAC,1\nAC,07\n",
        ids: Some(b"id"),
        stopped: Some(ColumnCause::Pack(Cause::Row {
            number: 3,
            reason: RowReason::BadId,
        })),
        ..PLAIN
    },
    Row {
        name: "ids: on some lines only",
        input: b"id,line\n1,AC\n,AC\n",
        ids: Some(b"id"),
        stopped: Some(ColumnCause::Pack(Cause::Row {
            number: 3,
            reason: RowReason::MixedIds,
        })),
        ..PLAIN
    },
    Row {
        name: "ids: none at all",
        input: b"id,line\n,AC\n,\n",
        ids: Some(b"id"),
        stream: b"\xa5\x03\t\x04\x00\x02\x00\x02\x01\x04\x02\x00",
        done: 1,
        taken: 3,
        ..PLAIN
    },
    Row {
        name: "ids: a bad polyline has the number of its record",
        input: b"id,line\n1,AC\n2,A\n",
        ids: Some(b"id"),
        stopped: Some(ColumnCause::Pack(Cause::Row {
            number: 3,
            reason: RowReason::Polyline(1, PolyReason::Half),
        })),
        ..PLAIN
    },
    Row {
        name: "ids: the column is looked for before that of ids",
        input: b"line,line\nAC,1\n",
        ids: Some(b"id"),
        stopped: Some(ColumnCause::Csv {
            number: 1,
            reason: ColumnReason::ColumnTwice,
        }),
        ..PLAIN
    },
    Row {
        name: "ids: no column of ids",
        input: b"line,Id\nAC,1\n",
        ids: Some(b"id"),
        stopped: Some(ColumnCause::Csv {
            number: 1,
            reason: ColumnReason::NoSuchColumn,
        }),
        ..PLAIN
    },
    Row {
        name: "ids: the column of ids twice",
        input: b"id,line,id\n1,AC,1\n",
        ids: Some(b"id"),
        stopped: Some(ColumnCause::Csv {
            number: 1,
            reason: ColumnReason::ColumnTwice,
        }),
        ..PLAIN
    },
    Row {
        name: "ids: a missing value has the number of its record",
        input: b"id,line\n1,AC\n2,NULL\n",
        ids: Some(b"id"),
        stopped: Some(ColumnCause::Csv {
            number: 3,
            reason: ColumnReason::MissingValue,
        }),
        ..PLAIN
    },
    Row {
        name: "ids: a word for a missing polyline is none for an id",
        input: b"id,line\nNULL,NULL\n",
        ids: Some(b"id"),
        nulls: [b"NULL", b"", b"", b""],
        stopped: Some(ColumnCause::Pack(Cause::Row {
            number: 2,
            reason: RowReason::BadId,
        })),
        ..PLAIN
    },
    Row {
        name: "ids: the column itself as that of ids",
        input: b"line\nAC\n",
        ids: Some(b"line"),
        stopped: Some(ColumnCause::Pack(Cause::Row {
            number: 2,
            reason: RowReason::BadId,
        })),
        ..PLAIN
    },
];
