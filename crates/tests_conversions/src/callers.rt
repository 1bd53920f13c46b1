//! Each caller of `example_callers` once, on bytes worked out by hand from the formats; `stops_table`
//! calls `make_stops`.
use example_callers::{
    Account, Arrived, count_arrivals, count_points, joined, pack_table, stops_table,
};
use std::alloc::Global;
use twkb_convert::{Cause, RowReason};
use twkb_io::{Fuse, FuseEnd, Tap};
use twkb_points::Pt;

// A linestring of two points with a size and a box and without, and a collection of a point and an empty linestring.
const BLOBS: [u8; 37] = [
    0x02, 0x03, 0x09, 0x02, 0x08, 0x02, 0x08, 0x02, 0x02, 0x02, 0x08, 0x08, 0x02, 0x00, 0x02, 0x02,
    0x02, 0x08, 0x08, 0x07, 0x07, 0x0f, 0x02, 0x00, 0x02, 0x00, 0x02, 0x0e, 0x01, 0x01, 0x02, 0x02,
    0x02, 0x02, 0x02, 0x12, 0x00,
];

#[test]
fn a_stream_has_its_points(rt: HostRuntime) {
    let mut device = Tap::new(BLOBS.as_slice());
    assert!(rt; count_points(rt.alloc(), &mut device) == Ok(5));
}

#[test]
fn a_socket_that_gives_five_bytes_at_a_time_gives_all(rt: HostRuntime) {
    let mut socket = Fuse::new(BLOBS.as_slice(), 37, 5, FuseEnd::Zero, false);
    let arrived = Arrived {
        geometries: 3,
        bytes: 37,
    };
    assert!(rt; count_arrivals(rt.alloc(), &mut socket) == Ok(arrived));
}

// Whether two routes are joined to this text.
fn joins_to(alloc: Global, first: &[u8], second: &[u8], text: &[u8]) -> bool {
    match joined(alloc, first, second) {
        Ok(found) => found.as_slice() == text,
        Err(_) => false,
    }
}

#[test]
fn routes_are_joined(rt: HostRuntime) {
    assert!(rt; joins_to(rt.alloc(), b"AA", b"II", b"AAGG"));
}

// The table of two stops.
const STOPS: &[u8] =
    b"depth,kind,id,precision,polyline\n0,multipoint,,5,\n1,point,1,,??\n1,point,2,,AA\n";

// The points (0, 0) and (1, 1).
fn places(alloc: Global) -> Option<Vec<Pt>> {
    let places = [Pt::try_new(0, 0)?, Pt::try_new(1, 1)?];
    Vec::from_slice(alloc, &places).ok()
}

// The table as the caller makes it from its stops.
fn stops_text(alloc: Global) -> Option<Vec<u8>> {
    let numbers = Vec::from_slice(alloc, &[1, 2]).ok()?;
    stops_table(alloc, places(alloc)?, numbers).ok()
}

// Whether the caller's table is the expected one.
fn is_printed(alloc: Global) -> bool {
    match stops_text(alloc) {
        Some(text) => text.as_slice() == STOPS,
        None => false,
    }
}

#[test]
fn stops_are_made_and_printed(rt: HostRuntime) {
    assert!(rt; is_printed(rt.alloc()));
}

// Whether a table is packed to the blob of the point (2, 1), and packing then stops for this cause.
fn packs_a_point(alloc: Global, table: &[u8], stopped: Option<Cause>) -> bool {
    let mut writer = Tap::new(Vec::new(alloc));
    let account = pack_table(alloc, &mut Tap::new(table), &mut writer);
    let due = Account {
        done: 1,
        sent: 5,
        stopped,
    };
    let written = writer.into_inner();
    account == due && written.as_slice() == b"\x01\x02\x02\x04\x02".as_slice()
}

const POINT: &[u8] = b"depth,kind,id,precision,polyline\n0,point,,0,AC\n";

// The point, another point, and a row with an unknown kind.
const THREE_ROWS: &[u8] =
    b"depth,kind,id,precision,polyline\n0,point,,0,AC\n0,point,,0,AA\n0,pont,,0,\n";

const BAD_KIND: Cause = Cause::Row {
    number: 4,
    reason: RowReason::BadKind,
};

#[test]
fn a_table_is_packed_to_its_end_or_up_to_its_refused_row(rt: HostRuntime) {
    assert!(rt; packs_a_point(rt.alloc(), POINT, None));
    assert!(rt; packs_a_point(rt.alloc(), THREE_ROWS, Some(BAD_KIND)));
}
