//! The writer: the two styles, sinks that refuse a put, lengths at their thresholds, and lines
//! written from lists. Blobs of tables are those of the program `vector_runner`.
use crate::fixtures::{POINT_AND_LINE, form};
use std::alloc::Global;
use twkb_geom::{Flat, PointId, Work};
use twkb_grammar::Style;
use twkb_io::{Fuse, FuseEnd, Output, Tap};
use twkb_points::{PointList, Pt};
use twkb_writer::{Piece, measure_flat, write_flat, write_line};

// ---- the style of a blob. The laws and samples of the grammar are contracts of functions that do
// nothing.

#[test]
fn a_full_blob_has_sizes_and_a_plain_one_has_none(rt: HostRuntime) {
    assert!(rt; Style::Full.is_full() & !Style::Plain.is_full());
}

// ---- sinks that refuse a put

// Whether a device with room for this many bytes took that prefix of the blob, and only the whole
// blob is reported as written.
fn is_front(front: &[u8], blob: &[u8], room: usize, is_written: bool) -> bool {
    let is_whole = room >= blob.len();
    blob.starts_with(front) & (front.len() == room.min(blob.len())) & (is_written == is_whole)
}

// Whether a device with room for this many bytes takes that prefix of the form's blob, and only
// the whole blob is reported as written.
fn form_keeps_a_front(alloc: Global, flat: &Flat, style: Style, blob: &[u8], room: usize) -> bool {
    let mut work = Work::new();
    let Ok(sizes) = measure_flat(alloc, flat, style, &mut work) else {
        return false;
    };
    let mut tap = Tap::new(Fuse::new(Vec::new(alloc), room as u64, 3, FuseEnd::Fail, false));
    let mut output = Output::new(&mut tap);
    let is_written = write_flat(flat, style, &sizes, &mut output, &mut work).is_ok();
    is_front(&tap.into_inner().into_inner(), blob, room, is_written)
}

// Whether a prefix is kept in each room from this size up to the blob's length.
fn form_keeps_each_front(alloc: Global, style: Style, blob: &[u8], least: usize) -> bool {
    let flat = form(alloc, blob);
    for room in least..blob.len().saturating_add(1) {
        if !form_keeps_a_front(alloc, &flat, style, blob, room) {
            return false;
        }
    }
    true
}

#[test]
fn a_front_is_written_where_the_device_fails_at_each_byte(rt: HostRuntime) {
    assert!(rt; form_keeps_each_front(rt.alloc(), Style::Full, POINT_AND_LINE, 0));
}

// Appends bytes.
fn put(blob: &mut Vec<u8>, bytes: &[u8]) {
    let _is_put = blob.extend_from_slice(bytes).is_ok();
}

// The plain blob of a line of 1100 points, of 4404 bytes, which is more than the writer gathers:
// type, metadata and count, and equal differences, each 100 to the right and 100 down.
fn long_blob(alloc: Global) -> Vec<u8> {
    let mut blob = Vec::new(alloc);
    put(&mut blob, b"\x02\x00\xCC\x08");
    for _ in 0..1100 {
        put(&mut blob, b"\xC8\x01\xC7\x01");
    }
    blob
}

// The device fails in the first piece of 4096 bytes, between two pieces, in the last piece, at
// its last byte, and nowhere.
#[test]
fn a_front_of_a_long_blob_is_written_wherever_the_device_fails(rt: HostRuntime) {
    assert!(rt; form_keeps_each_front(rt.alloc(), Style::Plain, &long_blob(rt.alloc()), 4090));
}

// ---- lines whose differences are on both sides of each length's threshold, alone and two points
// at a time

// Full blobs of lines at precision 0. The forms of their differences are 127 and 128, 16383 and
// 16384, 2097151 and 2097152, 268435455 and 268435456: in each pair the last number of its length
// and the first longer one. Lengths, boxes and bytes were made by a short program in Python from
// the TWKB specification, and not by this repository.
const LINES: [&[u8]; 4] = [
    // at 2^7 and 2^14, then at 2^21 and 2^28: [(-64, 64), (-8256, 8256), (-1056832, 1056832), (-135274560, 135274560)]
    b"\x02\x03\x2A\xFF\x80\x81\x81\x01\x80\x80\x81\x81\x01\x80\x01\x80\x80\x81\x81\x01\x04\x7F\
    \x80\x01\xFF\x7F\x80\x80\x01\xFF\xFF\x7F\x80\x80\x80\x01\xFF\xFF\xFF\x7F\x80\x80\x80\x80\x01",
    // at 2^21 and 2^7, then at 2^14 and 2^21, then at 2^28: [(-1048576, 1048576), (-1048640,
    // 1048640), (-1056832, 1056832), (-2105408, 2105408), (-136323136, 136323136)]
    b"\x02\x03\x33\xFF\x80\x81\x82\x01\x80\x81\x81\x81\x01\x80\x80\x80\x01\x80\x81\x81\x81\x01\
    \x05\xFF\xFF\x7F\x80\x80\x80\x01\x7F\x80\x01\xFF\x7F\x80\x80\x01\xFF\xFF\x7F\x80\x80\x80\x01\
    \xFF\xFF\xFF\x7F\x80\x80\x80\x80\x01",
    // just below 2^28, and at 2^21: [(-134217728, 64), (-133169152, 0)]
    b"\x02\x03\x17\xFF\xFF\xFF\x7F\x80\x80\x80\x01\x00\x80\x01\x02\xFF\xFF\xFF\x7F\x80\x01\x80\x80\x80\x01\x7F",
    // no step, then at 2^28 there and back: [(0, 0), (-134217728, -134217728), (0, 0)]
    b"\x02\x03\x27\xFF\xFF\xFF\x7F\x80\x80\x80\x80\x01\xFF\xFF\xFF\x7F\x80\x80\x80\x80\x01\x03\
    \x00\x00\xFF\xFF\xFF\x7F\xFF\xFF\xFF\x7F\x80\x80\x80\x80\x01\x80\x80\x80\x80\x01",
];

// Whether each line, read and written again, has the same size, box and bytes.
fn are_rewritten(alloc: Global) -> bool {
    for blob in LINES {
        if !form_keeps_a_front(alloc, &form(alloc, blob), Style::Full, blob, blob.len()) {
            return false;
        }
    }
    true
}

#[test]
fn steps_at_each_threshold_have_their_lengths(rt: HostRuntime) {
    assert!(rt; are_rewritten(rt.alloc()));
}

// ---- lines written from a list of points, without a form

// The points of a slice.
#[derive(Clone, Copy)]
struct OwnPoints<'a> {
    own: &'a [Pt],
}

impl PointList for OwnPoints<'_> {
    ghost points = { λ list. list.own.now };

    fn count(&self) -> usize {
        self.own.len()
    }

    fn point(&self, at: usize) -> Pt {
        self.own[at]
    }
}

// The points of a form; fewer if memory is refused.
fn points_of(alloc: Global, flat: &Flat) -> Vec<Pt> {
    let mut work = Work::new();
    let mut points = Vec::new(alloc);
    for index in 0..flat.point_count() {
        let _is_kept = points.push(flat.point(PointId(index), &mut work)).is_ok();
    }
    points
}

// Whether a device with room for this many bytes takes that prefix of the line's blob, and only
// the whole blob is reported as written. The line is measured once, and its points are read twice.
fn keeps_a_front(alloc: Global, own: &[Pt], style: Style, blob: &[u8], room: usize) -> bool {
    if own.len() > 2000 {
        return false;
    }
    let count = own.len() as u64;
    let mut work = Work::new();
    let mut tap = Tap::new(Fuse::new(Vec::new(alloc), room as u64, 3, FuseEnd::Fail, false));
    let mut output = Output::new(&mut tap);
    let line = OwnPoints { own };
    let is_written = write_line(0, &line, style, &mut Piece::new(), &mut output, &mut work).is_ok();
    let is_measured = (work.points == count) & (work.nodes == 1) & (work.entries == 1);
    let is_read = (work.point_reads == 2 * count) & (work.node_reads == 0);
    is_measured & is_read & is_front(&tap.into_inner().into_inner(), blob, room, is_written)
}

// Whether a prefix is kept in each room from this size up to the blob's length.
fn keeps_each_front(alloc: Global, style: Style, blob: &[u8], least: usize) -> bool {
    let points = points_of(alloc, &form(alloc, blob));
    for room in least..blob.len().saturating_add(1) {
        if !keeps_a_front(alloc, &points, style, blob, room) {
            return false;
        }
    }
    true
}

// Whether each line of the thresholds has the same size, box and bytes when it is written from its
// points, and a prefix of them in any room.
fn are_written(alloc: Global) -> bool {
    for blob in LINES {
        if !keeps_each_front(alloc, Style::Full, blob, 0) {
            return false;
        }
    }
    true
}

#[test]
fn lines_at_each_threshold_are_written_from_their_points(rt: HostRuntime) {
    assert!(rt; are_written(rt.alloc()));
}

// The plain line from (1, 1) to (5, 5) is the example of PostGIS's `ST_AsTWKB`. An empty line has
// the empty bit, and a size of 0 in a full blob (TWKB, metadata header).
#[test]
fn a_short_line_is_written_from_its_points(rt: HostRuntime) {
    assert!(rt; keeps_each_front(rt.alloc(), Style::Plain, b"\x02\x00\x02\x02\x02\x08\x08", 0));
    assert!(rt; keeps_each_front(rt.alloc(), Style::Plain, b"\x02\x10", 0));
    assert!(rt; keeps_each_front(rt.alloc(), Style::Full, b"\x02\x12\x00", 0));
}

// The device fails in the first piece of 4096 bytes, between two pieces, in the last piece, at
// its last byte, and nowhere.
#[test]
fn a_front_of_a_long_line_is_written_from_its_points(rt: HostRuntime) {
    assert!(rt; keeps_each_front(rt.alloc(), Style::Plain, &long_blob(rt.alloc()), 4090));
}
