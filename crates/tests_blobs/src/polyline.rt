//! Want of memory, points in blocks and points one by one. Vectors of polylines are those of the
//! program `vector_runner`.
use std::alloc::Global;
use twkb_num::Piece;
use twkb_points::Pt;
use twkb_polyline::{PolyFault, decode, decode_into, encode, encode_into, encode_point};

// Far points, whose text grows more than once, and near ones, of which there are more.
const FAR: &[u8] = b"A____________CA~~~~~~~~~~~~FA____________G";

const NEAR: &[u8] = b"AAAAAAAAAAAAAAAAAA";

// Numbers of one to four characters, which fill a piece of the text and more.
const MIXED: &[u8] =
    b"A_C__C___CA_C__C___CA_C__C___CA_C__C___CA_C__C___CA_C__C___CA_C__C___CA_C__C___CA_C__C___CA\
    _C__C___CA_C__C___CA_C__C___CA_C__C___CA_C__C___C";

// Whether the text is that of these points, or memory is refused; also if it is appended to a
// borrowed vector, which stays empty after a refusal.
fn is_written(alloc: Global, points: &[Pt], text: &[u8]) -> bool {
    let mut lent = Vec::new(alloc);
    let is_lent = match encode_into(points, &mut lent) {
        Ok(()) => lent.as_slice() == text,
        Err(_) => lent.is_empty(),
    };
    match encode(alloc, points) {
        Ok(written) => is_lent & (written.as_slice() == text),
        Err(_) => is_lent,
    }
}

// Whether the points of the text, at most `most`, are read and give it again, or memory is
// refused; also if they are appended to a borrowed vector, which stays empty after a refusal.
fn is_read(alloc: Global, text: &[u8], most: u32) -> bool {
    let mut lent = Vec::new(alloc);
    let is_lent = match decode_into(text, most, &mut lent) {
        Ok(()) => is_written(alloc, &lent, text),
        Err(fault) => (fault == PolyFault::Memory) & lent.is_empty(),
    };
    match decode(alloc, text, most) {
        Ok(points) => is_lent & (points.len() > 2),
        Err(fault) => is_lent & (fault == PolyFault::Memory),
    }
}

#[test]
fn each_growth_may_be_refused(rt: HostRuntime) {
    let alloc = rt.alloc();
    assert!(rt; is_read(alloc, NEAR, 9) & is_read(alloc, FAR, 9) & is_read(alloc, MIXED, 28));
}

// Makes `count` points, the first at this x, each as far from the one before it.
fn made_points(alloc: Global, count: u32, start: i64, step: i64) -> Option<Vec<Pt>> {
    let mut points = Vec::new(alloc);
    for place in 0..count {
        let way = i64::from(place).wrapping_mul(step);
        let point = Pt::try_new(start.wrapping_add(way), way.wrapping_mul(-3))?;
        if points.push(point).is_err() {
            return None;
        }
    }
    Some(points)
}

// Whether these points, `count` of them, are read from their text, or memory is refused.
fn are_read_back(alloc: Global, count: u32, made: Option<Vec<Pt>>) -> bool {
    let Some(points) = made else {
        return true;
    };
    let Ok(text) = encode(alloc, &points) else {
        return true;
    };
    match decode(alloc, &text, count) {
        Ok(read) => read.as_slice() == points.as_slice(),
        Err(fault) => fault == PolyFault::Memory,
    }
}

// Whether points are read back for each count on both sides of what a block holds: eight points
// and multiples of eight.
fn counts_are_read_back(alloc: Global, start: i64, step: i64) -> bool {
    let mut all = true;
    for count in 0..40 {
        all &= are_read_back(alloc, count, made_points(alloc, count, start, step));
    }
    all
}

// Numbers of one to six characters: those of up to four are found in blocks.
#[test]
fn points_are_read_in_blocks_as_one_by_one(rt: HostRuntime) {
    let alloc = rt.alloc();
    let short = counts_are_read_back(alloc, 0, 3) & counts_are_read_back(alloc, 0, 300);
    let long = counts_are_read_back(alloc, 0, 20_000) & counts_are_read_back(alloc, 0, 500_000);
    assert!(rt; short & long & counts_are_read_back(alloc, 0, 40_000_000));
}

// The number of points that `mixed_points` makes.
fn mixed_count(near: u32, far: u32) -> u32 {
    near.wrapping_add(far).wrapping_add(40)
}

// Makes `near` near points, then `far` far ones of twelve characters each, and 40 near ones.
fn mixed_points(alloc: Global, near: u32, far: u32) -> Option<Vec<Pt>> {
    let mut points = Vec::new(alloc);
    let mut way: i64 = 0;
    for place in 0..mixed_count(near, far) {
        let is_far = place >= near && place < near.wrapping_add(far);
        way = way.wrapping_add(if is_far { 40_000_000 } else { 3 });
        let point = Pt::try_new(way, way.wrapping_mul(-3))?;
        if points.push(point).is_err() {
            return None;
        }
    }
    Some(points)
}

// Whether points are read back with each number of far ones: up to 564 characters, more than twice
// what is read after a search in vain before blocks are searched for again.
fn far_points_are_read_back(alloc: Global, near: u32) -> bool {
    let mut all = true;
    for far in 0..48 {
        let made = mixed_points(alloc, near, far);
        all &= are_read_back(alloc, mixed_count(near, far), made);
    }
    all
}

// Near points come after far ones, which come first, or after one block, or after three.
#[test]
fn near_points_after_far_ones_are_read_in_blocks_as_one_by_one(rt: HostRuntime) {
    let alloc = rt.alloc();
    let first = far_points_are_read_back(alloc, 0) & far_points_are_read_back(alloc, 11);
    assert!(rt; first & far_points_are_read_back(alloc, 27));
}

// Blocks are read from points up to 2^61 away, and eight steps further.
#[test]
fn points_are_read_in_blocks_up_to_the_inner_points_border(rt: HostRuntime) {
    let alloc = rt.alloc();
    let up = counts_are_read_back(alloc, (1 << 61) - 1_000_000, 100_000);
    assert!(rt; up & counts_are_read_back(alloc, 1_000_000 - (1 << 61), -100_000));
}

// The first point of Google's worked example, after a byte.
#[test]
fn one_point_is_encoded_after_a_byte(rt: HostRuntime) {
    let mut piece = Piece::<128>::new();
    piece.push(b',');
    if let Some(point) = Pt::try_new(-12020000, 3850000) {
        encode_point(point, &mut piece);
    }
    let wanted: &[u8] = b",_p~iF~ps|U";
    assert!(rt; piece.as_slice() == wanted);
}
