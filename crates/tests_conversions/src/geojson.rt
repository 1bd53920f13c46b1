//! Streams as GeoJSON.
use crate::devices::{Ended, Failing, SOUND, account_of, cut_reader, cut_writer};
use example_callers::Account;
use std::alloc::Global;
use twkb_convert::{BlobReason, Cause, unpack_geojson};
use twkb_geom::Limits;
use twkb_io::FuseEnd;

// Streams and their lines, worked by hand from RFC 7946 and the project's format.
const ROWS: [(&str, &[u8], &[u8]); 9] = [
    (
        "point",
        b"\x01\x00\x04\x02",
        b"{\"type\":\"Point\",\"coordinates\":[2,1]}\n",
    ),
    (
        "line, the example of Google",
        b"\xA2\x03\x23\xE7\xCE\x87\x0C\xA8\xAA\x4C\xA0\xFC\xD5\x03\x80\x81\x3A\x03\xBF\xA4\
        \xBB\x0B\xA0\xFC\xD5\x03\xEF\x93\x09\xC0\xED\x1A\xB7\x96\x43\xC0\x93\x1F",
        b"{\"type\":\"LineString\",\"coordinates\":[[-120.2,38.5],[-120.95,40.7],[-126.453,43\
        .252]]}\n",
    ),
    (
        "multipoint with ids",
        b"\x04\x07\x0B\x00\x02\x00\x02\x02\x02\x04\x00\x00\x02\x02",
        b"{\"type\":\"MultiPoint\",\"ids\":[1,2],\"coordinates\":[[0,0],[1,1]]}\n",
    ),
    (
        "multipolygon with ids and empties",
        b"\x06\x07\x0D\x02\x00\x02\x00\x02\x06\x08\x02\x01\x02\x02\x00\x00",
        b"{\"type\":\"MultiPolygon\",\"ids\":[3,4],\"coordinates\":[[[[1,1]],[]],[]]}\n",
    ),
    (
        "polygon and multilinestring",
        b"\x23\x03\x0B\x00\x1E\x1D\x1E\x02\x02\x00\x00\x1E\x1D\x00\x15\x07\x0D\x00\x02\x05\
        \x0A\x02\x0A\x0B\x01\x02\x04\x01\x01\x09",
        b"{\"type\":\"Polygon\",\"coordinates\":[[[0,0],[1.5,-1.5]],[]]}\n{\"type\":\"MultiLi\
        neString\",\"ids\":[5,-6],\"coordinates\":[[[10,20]],[[0,-30]]]}\n",
    ),
    (
        "collection, members of other precisions",
        b"\x07\x06\x0D\x02\x0E\x01\xA1\x02\x04\xC0\x9A\x0C\x01\xE7\x12\x00",
        b"{\"type\":\"GeometryCollection\",\"ids\":[7,-1],\"geometries\":[{\"type\":\"Point\"\
        ,\"coordinates\":[1,-0.00001]},{\"type\":\"GeometryCollection\",\"geometries\":[]}]}\
        \n",
    ),
    (
        "every kind empty",
        b"\xA1\x12\x00\xA2\x12\x00\xA3\x12\x00\xA4\x12\x00\xA5\x12\x00\xA6\x12\x00\xA7\x12\
        \x00",
        b"{\"type\":\"Point\",\"coordinates\":[]}\n{\"type\":\"LineString\",\"coordinates\":[\
        ]}\n{\"type\":\"Polygon\",\"coordinates\":[]}\n{\"type\":\"MultiPoint\",\"coordinates\
        \":[]}\n{\"type\":\"MultiLineString\",\"coordinates\":[]}\n{\"type\":\"MultiPolygon\"\
        ,\"coordinates\":[]}\n{\"type\":\"GeometryCollection\",\"geometries\":[]}\n",
    ),
    (
        "both ends of the range at 7, 0 and -8",
        b"\xE1\x02\x12\xFF\xFF\xFF\xFF\xFF\xFF\xFF\xFF\x7F\xFE\xFF\xFF\xFF\xFF\xFF\xFF\xFF\
        \x7F\x01\x02\x12\xFF\xFF\xFF\xFF\xFF\xFF\xFF\xFF\x7F\xFE\xFF\xFF\xFF\xFF\xFF\xFF\xFF\
        \x7F\xF1\x02\x12\xFF\xFF\xFF\xFF\xFF\xFF\xFF\xFF\x7F\xFE\xFF\xFF\xFF\xFF\xFF\xFF\xFF\
        \x7F",
        b"{\"type\":\"Point\",\"coordinates\":[-461168601842.7387904,461168601842.7387903]}\n\
        {\"type\":\"Point\",\"coordinates\":[-4611686018427387904,4611686018427387903]}\n{\"t\
        ype\":\"Point\",\"coordinates\":[-461168601842738790400000000,46116860184273879030000\
        0000]}\n",
    ),
    (
        "fractions without zeros at their end",
        b"\xA2\x03\x2B\x01\xF6\x88\x0F\x87\xD9\x96\x01\xC6\xF3\xA2\x01\x05\xC0\x9A\x0C\xBF\
        \x9A\x0C\xAB\x9A\x0C\xFE\xB4\x18\x15\xBB\x9A\x0C\xF6\x88\x0F\x89\xD9\x96\x01\xF3\x88\
        \x0F\x88\xD9\x96\x01",
        b"{\"type\":\"LineString\",\"coordinates\":[[1,-1],[0.0001,0.99999],[-0.00001,0.00001\
        ],[1.2345,-12.345],[0,0]]}\n",
    ),
];

// A point at both ends of the range of coordinates, at each precision from -8 to 7.
const ENDS: &[u8] =
    b"\xF1\x00\xFF\xFF\xFF\xFF\xFF\xFF\xFF\xFF\x7F\xFE\xFF\xFF\xFF\xFF\xFF\xFF\xFF\x7F\xD1\x00\
    \xFF\xFF\xFF\xFF\xFF\xFF\xFF\xFF\x7F\xFE\xFF\xFF\xFF\xFF\xFF\xFF\xFF\x7F\xB1\x00\xFF\xFF\
    \xFF\xFF\xFF\xFF\xFF\xFF\x7F\xFE\xFF\xFF\xFF\xFF\xFF\xFF\xFF\x7F\x91\x00\xFF\xFF\xFF\xFF\
    \xFF\xFF\xFF\xFF\x7F\xFE\xFF\xFF\xFF\xFF\xFF\xFF\xFF\x7F\x71\x00\xFF\xFF\xFF\xFF\xFF\xFF\
    \xFF\xFF\x7F\xFE\xFF\xFF\xFF\xFF\xFF\xFF\xFF\x7F\x51\x00\xFF\xFF\xFF\xFF\xFF\xFF\xFF\xFF\
    \x7F\xFE\xFF\xFF\xFF\xFF\xFF\xFF\xFF\x7F\x31\x00\xFF\xFF\xFF\xFF\xFF\xFF\xFF\xFF\x7F\xFE\
    \xFF\xFF\xFF\xFF\xFF\xFF\xFF\x7F\x11\x00\xFF\xFF\xFF\xFF\xFF\xFF\xFF\xFF\x7F\xFE\xFF\xFF\
    \xFF\xFF\xFF\xFF\xFF\x7F\x01\x00\xFF\xFF\xFF\xFF\xFF\xFF\xFF\xFF\x7F\xFE\xFF\xFF\xFF\xFF\
    \xFF\xFF\xFF\x7F\x21\x00\xFF\xFF\xFF\xFF\xFF\xFF\xFF\xFF\x7F\xFE\xFF\xFF\xFF\xFF\xFF\xFF\
    \xFF\x7F\x41\x00\xFF\xFF\xFF\xFF\xFF\xFF\xFF\xFF\x7F\xFE\xFF\xFF\xFF\xFF\xFF\xFF\xFF\x7F\
    \x61\x00\xFF\xFF\xFF\xFF\xFF\xFF\xFF\xFF\x7F\xFE\xFF\xFF\xFF\xFF\xFF\xFF\xFF\x7F\x81\x00\
    \xFF\xFF\xFF\xFF\xFF\xFF\xFF\xFF\x7F\xFE\xFF\xFF\xFF\xFF\xFF\xFF\xFF\x7F\xA1\x00\xFF\xFF\
    \xFF\xFF\xFF\xFF\xFF\xFF\x7F\xFE\xFF\xFF\xFF\xFF\xFF\xFF\xFF\x7F\xC1\x00\xFF\xFF\xFF\xFF\
    \xFF\xFF\xFF\xFF\x7F\xFE\xFF\xFF\xFF\xFF\xFF\xFF\xFF\x7F\xE1\x00\xFF\xFF\xFF\xFF\xFF\xFF\
    \xFF\xFF\x7F\xFE\xFF\xFF\xFF\xFF\xFF\xFF\xFF\x7F";

// The lines of those points. The decimals are those of Python's `decimal`.
const ENDS_LINES: &[u8] =
    b"{\"type\":\"Point\",\"coordinates\":[-461168601842738790400000000,46116860184273879030000\
    0000]}\n{\"type\":\"Point\",\"coordinates\":[-46116860184273879040000000,461168601842738790\
    30000000]}\n{\"type\":\"Point\",\"coordinates\":[-4611686018427387904000000,461168601842738\
    7903000000]}\n{\"type\":\"Point\",\"coordinates\":[-461168601842738790400000,46116860184273\
    8790300000]}\n{\"type\":\"Point\",\"coordinates\":[-46116860184273879040000,461168601842738\
    79030000]}\n{\"type\":\"Point\",\"coordinates\":[-4611686018427387904000,461168601842738790\
    3000]}\n{\"type\":\"Point\",\"coordinates\":[-461168601842738790400,461168601842738790300]}\
    \n{\"type\":\"Point\",\"coordinates\":[-46116860184273879040,46116860184273879030]}\n{\"typ\
    e\":\"Point\",\"coordinates\":[-4611686018427387904,4611686018427387903]}\n{\"type\":\"Poin\
    t\",\"coordinates\":[-461168601842738790.4,461168601842738790.3]}\n{\"type\":\"Point\",\"co\
    ordinates\":[-46116860184273879.04,46116860184273879.03]}\n{\"type\":\"Point\",\"coordinate\
    s\":[-4611686018427387.904,4611686018427387.903]}\n{\"type\":\"Point\",\"coordinates\":[-46\
    1168601842738.7904,461168601842738.7903]}\n{\"type\":\"Point\",\"coordinates\":[-4611686018\
    4273.87904,46116860184273.87903]}\n{\"type\":\"Point\",\"coordinates\":[-4611686018427.3879\
    04,4611686018427.387903]}\n{\"type\":\"Point\",\"coordinates\":[-461168601842.7387904,46116\
    8601842.7387903]}\n";

// Unpacks a stream over devices that pass one byte a call and fail in this way; the writer fills an
// empty room.
fn unpacked(alloc: Global, input: &[u8], failing: Failing, room: Vec<u8>) -> Ended {
    let mut reader = cut_reader(input, failing.given);
    let mut writer = cut_writer(room, failing);
    let limits = Limits::standard();
    let account = account_of(unpack_geojson(alloc, &mut reader, &mut writer, limits));
    Ended {
        account,
        read: reader.given(),
        calls: writer.calls(),
        has_unflushed: writer.has_unflushed(),
        written: writer.into_inner().into_inner(),
    }
}

// Whether a stream is unpacked to these lines, all of them flushed.
fn gives(alloc: Global, input: &[u8], lines: &[u8]) -> bool {
    let found = unpacked(alloc, input, SOUND, Vec::new(alloc));
    found.account.stopped == None
        && found.account.sent == lines.len() as u64
        && found.written.as_slice() == lines
        && !found.has_unflushed
}

#[test]
fn each_geometry_is_a_line_of_geojson(rt: HostRuntime) {
    for (name, input, lines) in ROWS {
        assert!(rt; gives(rt.alloc(), input, lines), "{name}");
    }
}

#[test]
fn coordinates_are_exact_at_each_precision_and_both_ends_of_their_range(rt: HostRuntime) {
    assert!(rt; gives(rt.alloc(), ENDS, ENDS_LINES));
}

// ---- a stream of two blobs, with each read, each write and each growth failing in turn

const TWO: &[u8] = b"\x01\x00\x04\x02\x22\x00\x01\x0A\x09";

const TWO_LINES: &[u8] = b"{\"type\":\"Point\",\"coordinates\":[2,1]}\n\
    {\"type\":\"LineString\",\"coordinates\":[[0.5,-0.5]]}\n";

// The number of bytes of the first line, and of the first blob.
const FIRST_LINE: usize = 37;

const FIRST_BLOB: usize = 4;

// Whether this many bytes of the lines were written, and the writing stopped for this cause.
fn is_told(found: &Ended, done: u64, sent: usize, stopped: Option<Cause>) -> bool {
    let due = Account {
        done,
        sent: sent as u64,
        stopped,
    };
    found.account == due && found.written.len() == sent && TWO_LINES.starts_with(&found.written)
}

// Whether a read that fails after this many bytes is told after the lines of the whole blobs.
fn read_is_told(alloc: Global, given: usize) -> bool {
    let failing = Failing {
        given: given as u64,
        ..SOUND
    };
    let found = unpacked(alloc, TWO, failing, Vec::new(alloc));
    let stopped = Some(Cause::ReadDevice);
    if given < FIRST_BLOB {
        is_told(&found, 0, 0, stopped)
    } else if given < TWO.len() {
        is_told(&found, 1, FIRST_LINE, stopped)
    } else {
        is_told(&found, 2, TWO_LINES.len(), stopped)
    }
}

// Whether a write that fails after this many bytes is told after these.
fn write_is_told(alloc: Global, taken: usize, end: FuseEnd) -> bool {
    let failing = Failing {
        taken: taken as u64,
        end,
        ..SOUND
    };
    let found = unpacked(alloc, TWO, failing, Vec::new(alloc));
    let done = if taken < FIRST_LINE { 0 } else { 1 };
    is_told(&found, done, taken, Some(Cause::WriteDevice))
}

// Whether each read and each write that fails is told.
fn devices_are_told(alloc: Global) -> bool {
    let mut are_told = true;
    for given in 0..TWO.len() + 1 {
        are_told = are_told && read_is_told(alloc, given);
    }
    for taken in 0..TWO_LINES.len() {
        are_told = are_told
            && write_is_told(alloc, taken, FuseEnd::Fail)
            && write_is_told(alloc, taken, FuseEnd::Zero);
    }
    are_told
}

#[test]
fn each_device_that_fails_is_told_after_the_whole_lines_or_the_bytes_written(rt: HostRuntime) {
    assert!(rt; devices_are_told(rt.alloc()));
}

// Whether a blob of a type that there is not is told at its first byte, after the line before it.
fn refusal_is_told(alloc: Global) -> bool {
    let found = unpacked(alloc, b"\x01\x00\x04\x02\x08\x00", SOUND, Vec::new(alloc));
    let reason = BlobReason::BadType;
    is_told(
        &found,
        1,
        FIRST_LINE,
        Some(Cause::Blob { offset: 4, reason }),
    )
}

#[test]
fn a_refused_blob_is_told_after_the_lines_before_it(rt: HostRuntime) {
    assert!(rt; refusal_is_told(rt.alloc()));
}

// Whether all lines are written, or want of memory is told after the lines of whole blobs.
fn growths_are_told(alloc: Global) -> bool {
    let Ok(room) = Vec::with_capacity(alloc, TWO_LINES.len()) else {
        return true;
    };
    let found = unpacked(alloc, TWO, SOUND, room);
    is_told(&found, 2, TWO_LINES.len(), None)
        || is_told(&found, 0, 0, Some(Cause::Memory))
        || is_told(&found, 1, FIRST_LINE, Some(Cause::Memory))
}

// Run with each growth refused in turn (`make hostile`) too.
#[test]
fn a_refused_growth_is_want_of_memory_after_whole_lines(rt: HostRuntime) {
    assert!(rt; growths_are_told(rt.alloc()));
}
