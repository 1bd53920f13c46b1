//! Conversions worked out by hand.
use twkb_conversions::Conversion;
use twkb_convert::{BlobReason, Cause, RowReason, Style};

/// A conversion, its input and its whole output: that of no geometry, of one or, for a table, of two.
#[derive(Clone, Copy)]
pub struct Worked {
    pub name: &'static str,
    pub what: Conversion,
    pub input: &'static [u8],
    pub output: &'static [u8],
    /// The number of bytes of the output before the first geometry, and the place where that
    /// geometry ends.
    pub before: usize,
    pub first: usize,
    /// The number of bytes of a stream after which all is written; the number of reads.
    pub whole: usize,
    pub reads: usize,
    /// Why the conversion stops after its output, if it does.
    pub stopped: Option<Cause>,
}

// More bytes than any of the inputs has.
const NEVER: usize = 999;

const HEADER: &[u8] = b"depth,kind,id,precision,polyline\n";

const POINT: &[u8] = b"depth,kind,id,precision,polyline\n0,point,,0,AC\n";

const POINT_BLOB: &[u8] = b"\x01\x02\x02\x04\x02";

// A collection of a point with an id and an empty line with one.
const MEMBERS: &[u8] =
    b"depth,kind,id,precision,polyline\n0,collection,,0,\n1,point,7,0,AA\n1,linestring,-1,0,\n";

const MEMBERS_BLOB: &[u8] =
    b"\x07\x07\x0f\x02\x00\x02\x00\x02\x0e\x01\x01\x02\x02\x02\x02\x02\x12\x00";

const MEMBERS_GEOJSON: &[u8] =
    b"{\"type\":\"GeometryCollection\",\"ids\":[7,-1],\"geometries\":[{\"type\":\"Point\",\"coordinates\":[1,1]},\
    {\"type\":\"LineString\",\"coordinates\":[]}]}\n";

const MEMBERS_LINES: &[u8] =
    b"0 0 collection 0 07 18 1\n1 10 point 0 02 5 1\n1 15 linestring 0 12 3 0\n";

// Of each: offset, length and points, of eight bytes; level, of four; type, precision, metadata
// byte and 0.
const MEMBERS_HEADERS: &[u8] =
    b"\0\0\0\0\0\0\0\0\x12\0\0\0\0\0\0\0\x01\0\0\0\0\0\0\0\0\0\0\0\x07\0\x07\0\
    \x0A\0\0\0\0\0\0\0\x05\0\0\0\0\0\0\0\x01\0\0\0\0\0\0\0\x01\0\0\0\x01\0\x02\0\
    \x0F\0\0\0\0\0\0\0\x03\0\0\0\0\0\0\0\0\0\0\0\0\0\0\0\x01\0\0\0\x02\0\x12\0";

// A line of fourteen points, each 2^20 units further along x and one more down along y than the
// one before: with numbers of four bytes and of five characters, which fill the first piece of
// the row's polyline and more.
const LONG_LINE: &[u8] =
    b"\x02\x00\x0E\x80\x80\x80\x01\x81\x80\x80\x01\x80\x80\x80\x01\x81\x80\x80\x01\x80\x80\x80\
    \x01\x81\x80\x80\x01\x80\x80\x80\x01\x81\x80\x80\x01\x80\x80\x80\x01\x81\x80\x80\x01\x80\x80\
    \x80\x01\x81\x80\x80\x01\x80\x80\x80\x01\x81\x80\x80\x01\x80\x80\x80\x01\x81\x80\x80\x01\x80\
    \x80\x80\x01\x81\x80\x80\x01\x80\x80\x80\x01\x81\x80\x80\x01\x80\x80\x80\x01\x81\x80\x80\x01\
    \x80\x80\x80\x01\x81\x80\x80\x01\x80\x80\x80\x01\x81\x80\x80\x01\x80\x80\x80\x01\x81\x80\x80\
    \x01";

// A blob before one that is cut, and the reason; and bytes that name no type.
const CUT: &[u8] = b"\x01\x00\x04\x02\x01\x00\x04";

const CUT_BLOB: Cause = Cause::Blob {
    offset: 7,
    reason: BlobReason::Truncated,
};

const BAD_TYPE: Cause = Cause::Blob {
    offset: 0,
    reason: BlobReason::BadType,
};

const PACKED: Worked = Worked {
    name: "a point is packed",
    what: Conversion::Pack(Style::Full),
    input: POINT,
    output: POINT_BLOB,
    before: 0,
    first: 5,
    whole: NEVER,
    reads: 48,
    stopped: None,
};

const UNPACKED: Worked = Worked {
    name: "a point is unpacked",
    what: Conversion::Unpack,
    input: b"\x01\x00\x04\x02",
    output: POINT,
    before: 33,
    first: 47,
    whole: 4,
    reads: 5,
    stopped: None,
};

const SHOWN: Worked = Worked {
    name: "a collection is shown",
    what: Conversion::Show,
    input: MEMBERS_BLOB,
    output: MEMBERS_LINES,
    before: 0,
    first: 70,
    whole: 18,
    reads: 19,
    stopped: None,
};

const LISTED: Worked = Worked {
    name: "the headers of a collection are listed",
    what: Conversion::Headers,
    input: MEMBERS_BLOB,
    output: MEMBERS_HEADERS,
    before: 0,
    first: 96,
    whole: 18,
    reads: 19,
    stopped: None,
};

const MAPPED: Worked = Worked {
    name: "a collection is unpacked to GeoJSON",
    what: Conversion::Geojson,
    input: MEMBERS_BLOB,
    output: MEMBERS_GEOJSON,
    before: 0,
    first: 134,
    whole: 18,
    reads: 19,
    stopped: None,
};

/// A table is read to its end, except a refused one: that is not read after its last row.
pub const WORKED: [Worked; 23] = [
    PACKED,
    Worked {
        name: "two points are packed",
        input: b"depth,kind,id,precision,polyline\n0,point,,0,AC\n0,point,,0,AA\n",
        output: b"\x01\x02\x02\x04\x02\x01\x02\x02\x02\x02",
        reads: 62,
        ..PACKED
    },
    Worked {
        name: "a collection is packed",
        input: MEMBERS,
        output: MEMBERS_BLOB,
        first: 18,
        reads: 85,
        ..PACKED
    },
    Worked {
        name: "polygons are packed",
        input: b"depth,kind,id,precision,polyline\n0,multipolygon,,0,\n1,polygon,3,,\n\
            2,ring,,,AA\n2,ring,,,\n1,polygon,4,,\n",
        output: b"\x06\x07\x0d\x02\x00\x02\x00\x02\x06\x08\x02\x01\x02\x02\x00\x00",
        first: 16,
        reads: 103,
        ..PACKED
    },
    Worked {
        name: "a row is refused after two points",
        input: b"depth,kind,id,precision,polyline\n0,point,,0,AC\n0,point,,0,AA\n0,pont,,0,\n",
        reads: 72,
        stopped: Some(Cause::Row {
            number: 4,
            reason: RowReason::BadKind,
        }),
        ..PACKED
    },
    Worked {
        name: "a header is packed",
        input: HEADER,
        output: b"",
        first: NEVER,
        reads: 34,
        ..PACKED
    },
    Worked {
        name: "no header is refused",
        input: b"",
        output: b"",
        first: NEVER,
        reads: 1,
        stopped: Some(Cause::Row {
            number: 1,
            reason: RowReason::BadHeader,
        }),
        ..PACKED
    },
    UNPACKED,
    Worked {
        name: "a collection is unpacked",
        input: MEMBERS_BLOB,
        output: MEMBERS,
        first: 84,
        whole: 18,
        reads: 19,
        ..UNPACKED
    },
    Worked {
        name: "a line whose row is longer than the room of a text is unpacked",
        input: LONG_LINE,
        output: b"depth,kind,id,precision,polyline\n\
            0,linestring,,0,`___A____A`___A____A`___A____A`___A____A`___A____A`___A____A`___A____\
            A`___A____A`___A____A`___A____A`___A____A`___A____A`___A____A`___A____A\n",
        first: 190,
        whole: 115,
        reads: 116,
        ..UNPACKED
    },
    Worked {
        name: "a point before a cut blob is unpacked",
        input: CUT,
        reads: 8,
        stopped: Some(CUT_BLOB),
        ..UNPACKED
    },
    Worked {
        name: "no blobs are unpacked",
        input: b"",
        output: HEADER,
        first: NEVER,
        whole: NEVER,
        reads: 1,
        ..UNPACKED
    },
    Worked {
        name: "no type is unpacked",
        input: b"\x08",
        output: HEADER,
        first: NEVER,
        whole: NEVER,
        reads: 1,
        stopped: Some(BAD_TYPE),
        ..UNPACKED
    },
    SHOWN,
    Worked {
        name: "collections whose lines are longer than the room of a text are shown",
        input: b"\x07\x00\x01\x07\x00\x01\x07\x00\x01\x07\x00\x01\x07\x00\x01\x07\x10",
        output: b"0 0 collection 0 00 17 0\n1 3 collection 0 00 14 0\n2 6 collection 0 00 11 0\n\
            3 9 collection 0 00 8 0\n4 12 collection 0 00 5 0\n5 15 collection 0 10 2 0\n",
        first: 149,
        whole: 17,
        reads: 18,
        ..SHOWN
    },
    Worked {
        name: "a point before a cut blob is shown",
        input: CUT,
        output: b"0 0 point 0 00 4 1\n",
        first: 19,
        whole: 4,
        reads: 8,
        stopped: Some(CUT_BLOB),
        ..SHOWN
    },
    Worked {
        name: "no blobs are shown",
        input: b"",
        output: b"",
        first: NEVER,
        whole: NEVER,
        reads: 1,
        ..SHOWN
    },
    Worked {
        name: "no type is shown",
        input: b"\x08",
        output: b"",
        first: NEVER,
        whole: NEVER,
        reads: 1,
        stopped: Some(BAD_TYPE),
        ..SHOWN
    },
    LISTED,
    Worked {
        name: "the header of a point of precision -8 is listed",
        input: b"\xF1\x02\x02\x04\x02",
        output: b"\0\0\0\0\0\0\0\0\x05\0\0\0\0\0\0\0\x01\0\0\0\0\0\0\0\0\0\0\0\x01\xF8\x02\0",
        first: 32,
        whole: 5,
        reads: 6,
        ..LISTED
    },
    Worked {
        name: "the header of a point before a cut blob is listed",
        input: CUT,
        output: b"\0\0\0\0\0\0\0\0\x04\0\0\0\0\0\0\0\x01\0\0\0\0\0\0\0\0\0\0\0\x01\0\0\0",
        first: 32,
        whole: 4,
        reads: 8,
        stopped: Some(CUT_BLOB),
        ..LISTED
    },
    MAPPED,
    Worked {
        name: "a point before a cut blob is unpacked to GeoJSON",
        input: CUT,
        output: b"{\"type\":\"Point\",\"coordinates\":[2,1]}\n",
        first: 37,
        whole: 4,
        reads: 8,
        stopped: Some(CUT_BLOB),
        ..MAPPED
    },
];
