//! Copies, flat forms and blobs of geometries, sinks that keep bytes, and room that is used again:
//! with memory, and with each growth refused in turn (`make hostile`), where an answer is the right
//! one or want of memory.
use crate::fixtures::{
    NINE_COLLECTIONS, POINT_AND_LINE, THREE_PRECISIONS, TWO_POLYGONS, form, geometry,
};
use std::alloc::Global;
use twkb_geom::{Flat, Geometry, Kind, Limits, Row, Work};
use twkb_io::{Bytes, Count, Sink};
use twkb_points::Pt;
use twkb_polyline::decode;
use twkb_writer::{
    Depths, EncodeFault, Piece, Sizes, Style, encode_styled, measure, measure_flat, measure_into,
    write_flat, write_through,
};

// Whether a copy equals the geometry; `if_refused` is the answer if memory is refused.
fn is_copied(alloc: Global, geometry: &Geometry, if_refused: bool) -> bool {
    match geometry.copy(alloc) {
        Ok(copy) => {
            let is_same = copy == *geometry;
            drop(copy);
            is_same
        }
        Err(_) => if_refused,
    }
}

// Whether a form has rows, and they give this geometry; `if_refused` is the answer if memory is
// refused.
fn is_built(alloc: Global, flat: &Flat, geometry: &Geometry, if_refused: bool) -> bool {
    if flat.is_empty() {
        return false;
    }
    match flat.to_geometry(alloc) {
        Ok(built) => {
            let is_same = built == *geometry;
            drop(built);
            is_same
        }
        Err(_) => if_refused,
    }
}

// Whether the geometry's own form gives it back; `if_refused` is the answer if memory is refused.
fn has_form(alloc: Global, geometry: &Geometry, if_refused: bool) -> bool {
    if !geometry.within(&Limits::largest()) {
        return false;
    }
    match Flat::from_geometry(alloc, geometry) {
        Ok(flat) => {
            let is_built = is_built(alloc, &flat, geometry, if_refused);
            drop(flat);
            is_built
        }
        Err(_) => if_refused,
    }
}

// Whether the plain blob has the first of these lengths, and the full one is measured as the
// second; if memory is refused, nothing is put.
fn is_encoded(alloc: Global, geometry: &Geometry, lengths: (u64, u64), if_refused: bool) -> bool {
    if !geometry.within(&Limits::largest()) {
        return false;
    }
    let mut sink = Count::new();
    match encode_styled(alloc, geometry, Style::Plain, &mut sink) {
        Ok(()) => (sink.total(), measure(geometry)) == lengths,
        Err(fault) => (fault == EncodeFault::Memory) & (sink.total() == 0) & if_refused,
    }
}

// Whether the geometry passes all these tests.
fn all_are(alloc: Global, geometry: &Geometry, lengths: (u64, u64), if_refused: bool) -> bool {
    let is_kept = is_copied(alloc, geometry, if_refused) & has_form(alloc, geometry, if_refused);
    is_kept & is_encoded(alloc, geometry, lengths, if_refused)
}

// Whether the geometry of a blob passes all these tests; its plain and full blobs have these lengths.
fn holds(alloc: Global, blob: &[u8], lengths: (u64, u64), if_refused: bool) -> bool {
    match geometry(alloc, blob) {
        Some(geometry) => {
            let are_so = all_are(alloc, &geometry, lengths, if_refused);
            drop(geometry);
            are_so
        }
        None => if_refused,
    }
}

// Whether the form of a point and a line is measured and written as three entries and 18 bytes;
// `if_refused` is the answer if memory is refused.
fn is_written(alloc: Global, flat: &Flat, if_refused: bool) -> bool {
    let mut work = Work::new();
    let mut sink = Count::new();
    match measure_flat(alloc, flat, Style::Full, &mut work) {
        Ok(sizes) => {
            let is_put = write_flat(flat, Style::Full, &sizes, &mut sink, &mut work).is_ok();
            let is_counted = (work.points == 1) & (work.nodes == 3) & (work.entries == 3);
            is_put & is_counted & (sizes.len() == 3) & (sink.total() == 18)
        }
        Err(_) => if_refused,
    }
}

// Whether the form of the blob is written so, if it is read.
fn form_is_written(alloc: Global, if_refused: bool) -> bool {
    let flat = form(alloc, POINT_AND_LINE);
    (flat.is_empty() & if_refused) || is_written(alloc, &flat, if_refused)
}

// Whether a form that held more rows takes a point's row, and then that row in its place, without
// asking for memory.
fn takes_rows_again(flat: &mut Flat, own: &mut Vec<Pt>) -> bool {
    flat.clear();
    let row = Row {
        depth: 0,
        kind: Kind::Point,
        id: None,
        precision: Some(0),
    };
    if !flat.admits(&row, own) {
        return false;
    }
    let is_pushed = flat.push(row, own).is_ok() & (flat.node_count() == 1);
    is_pushed & flat.begin(row, own).is_ok() & (flat.point_count() == 1)
}

// Whether the form of a blob takes a row in place of its rows so; `if_refused` is the answer if
// memory was refused before.
fn is_used_again(alloc: Global, if_refused: bool) -> bool {
    let mut flat = form(alloc, TWO_POLYGONS);
    let mut own = decode(alloc, b"AC", 1).unwrap_or(Vec::new(alloc));
    ((flat.is_empty() | own.is_empty()) & if_refused) || takes_rows_again(&mut flat, &mut own)
}

// Memory reused from one geometry to the next.
#[derive(Drop)]
struct Room {
    depths: Depths,
    sizes: Sizes,
    piece: Piece,
}

// Whether a flat form is measured, and written to a sink that takes no memory.
fn is_done(flat: &Flat, style: Style, room: &mut Room) -> bool {
    let mut work = Work::new();
    let mut sink = Count::new();
    if measure_into(flat, style, &mut room.depths, &mut room.sizes, &mut work).is_err() {
        return false;
    }
    write_through(
        flat,
        style,
        &room.sizes,
        &mut room.piece,
        &mut sink,
        &mut work,
    )
    .is_ok()
}

// Whether the other form is measured and written without asking for memory after the largest one
// was, and then in another style; `if_refused` is the answer if memory was refused before.
fn grows_no_more_for(largest: &Flat, other: &Flat, room: &mut Room, if_refused: bool) -> bool {
    if largest.is_empty() | other.is_empty() || !is_done(largest, Style::Full, room) {
        return if_refused;
    }
    is_done(other, Style::Full, room) & is_done(largest, Style::Plain, room)
}

// Whether room that has grown for a form grows no more for a smaller one.
fn room_grows_no_more(alloc: Global, if_refused: bool) -> bool {
    let mut room = Room {
        depths: Depths::new(),
        sizes: Sizes::new(alloc),
        piece: Piece::new(),
    };
    let largest = form(alloc, NINE_COLLECTIONS);
    let other = form(alloc, TWO_POLYGONS);
    grows_no_more_for(&largest, &other, &mut room, if_refused)
}

// Bytes of two puts, of which the second takes more room than comes with the first.
const FIRST: &[u8] = &[1; 40];

const SECOND: &[u8] = &[2; 4000];

// The bytes that were put, if they were taken.
fn taken(bytes: &[u8], is_taken: bool) -> &[u8] {
    if is_taken { bytes } else { &[] }
}

// Whether a sink keeps those of two puts that it took; `if_refused` is the answer if it took fewer
// than both.
fn keeps_what_was_put(alloc: Global, if_refused: bool) -> bool {
    let mut bytes = Bytes::new(alloc);
    let has_first = bytes.put(FIRST).is_ok();
    let has_second = bytes.put(SECOND).is_ok();
    let kept = bytes.into_vec();
    let (first, second) = (taken(FIRST, has_first), taken(SECOND, has_second));
    let is_all = kept.len() == first.len() + second.len();
    let is_kept = is_all & kept.starts_with(first) & kept.ends_with(second);
    is_kept & (if_refused | (has_first & has_second))
}

// Whether three geometries pass all these tests, and bytes and room do.
fn all_hold(alloc: Global, if_refused: bool) -> bool {
    let are_polygons = holds(alloc, TWO_POLYGONS, (11, 16), if_refused);
    let are_members = holds(alloc, POINT_AND_LINE, (11, 18), if_refused);
    let are_nested = holds(alloc, THREE_PRECISIONS, (14, 18), if_refused);
    let are_written = form_is_written(alloc, if_refused) & keeps_what_was_put(alloc, if_refused);
    let is_room = is_used_again(alloc, if_refused) & room_grows_no_more(alloc, if_refused);
    are_polygons & are_members & are_nested & are_written & is_room
}

#[test]
fn copies_forms_and_blobs_are_those_of_their_geometry(rt: HostRuntime) {
    assert!(rt; all_hold(rt.alloc(), false));
}

// The same where a growth is refused: by itself this test asks for less than the one before.
#[test]
fn each_growth_may_be_refused(rt: HostRuntime) {
    assert!(rt; all_hold(rt.alloc(), true));
}
