//! Points: their range, a cursor that stays, lists both ways, and boxes that are joined; two points
//! and eight that are read at once, and two that are added to a flat form at once.
use crate::fixtures::form;
use crate::numbers::STEPS;
use std::alloc::Global;
use twkb_geom::{Flat, PointId, Work};
use twkb_num::{Leb128, varint_ends};
use twkb_points::{
    Bounds, Cursor, Eight, Pt, eight_points, merged, to_differences, to_points, two_points,
};
use twkb_polyline::decode;

// 2^62, the first number above the range of a coordinate.
const ABOVE: i64 = 1 << 62;

// Whether a new cursor reports which coordinate would leave the range, stays in place, and then moves.
fn stays_and_moves() -> bool {
    let mut cursor = Cursor::origin();
    let is_told = cursor.x_in_range(-ABOVE) & !cursor.x_in_range(ABOVE);
    let is_told = is_told & cursor.y_in_range(-ABOVE) & !cursor.y_in_range(ABOVE);
    let stays = cursor.add(ABOVE, 0).is_none() & cursor.add(0, i64::MIN).is_none();
    is_told & stays & (cursor.add(-1, 1) == Pt::try_new(-1, 1))
}

// Whether points reach to both ends of the range, and no further.
fn are_in_range() -> bool {
    let are_there = Pt::try_new(ABOVE - 1, -ABOVE).is_some()
        & Pt::try_new(-ABOVE, ABOVE - 1).is_some();
    let are_not = Pt::try_new(ABOVE, 0).is_none() & Pt::try_new(0, -ABOVE - 1).is_none();
    are_there & are_not
}

#[test]
fn points_are_in_range_and_a_cursor_stays_there(rt: HostRuntime) {
    assert!(rt; are_in_range() & stays_and_moves());
}

// Whether a cursor moves by steps that could be coordinates, and stays if it would leave the range.
fn moves_near() -> bool {
    let mut cursor = Cursor::origin();
    let moves = cursor.add_near(ABOVE - 1, -1) == Pt::try_new(ABOVE - 1, -1);
    moves & cursor.add_near(1, 0).is_none() & (cursor.add_near(-1, 1) == Pt::try_new(ABOVE - 2, 0))
}

#[test]
fn a_cursor_moves_by_near_steps(rt: HostRuntime) {
    assert!(rt; moves_near());
}

// The text of Google's worked example, the differences of its points as the page lists them,
// longitude before latitude, and their box.
const EXAMPLE: &[u8] = b"_p~iF~ps|U_ulLnnqC_mqNvxq`@";

const DELTAS: [(i64, i64); 3] = [(-12020000, 3850000), (-75000, 220000), (-550300, 255200)];

const BOX: [i64; 4] = [-12645300, 625300, 3850000, 475200];

// Whether the box of three points is this one, point by point and box by box.
fn is_joined(points: &[Pt]) -> bool {
    if points.len() != 3 {
        return false;
    }
    let mut bounds = Bounds::of(points[0]);
    bounds.include(points[1]);
    bounds.merge(&Bounds::of(points[2]));
    (bounds.items() == BOX) & (merged(Some(bounds), None) == Bounds::around(points))
}

// Whether three points have these differences, and other differences lead to the right points.
fn are_differences(points: &mut [Pt]) -> bool {
    if points.len() != 3 {
        return false;
    }
    let mut deltas = [(0, 0); 3];
    to_differences(points, &mut deltas);
    let written = to_points(&[(1, 2), (3, 4), (5, 6)], points);
    (deltas == DELTAS) & (written == 3) & (points[2].x() == 9) & (points[2].y() == 12)
}

// Whether the points of the example have their box and their differences.
fn are_measured(alloc: Global) -> bool {
    match decode(alloc, EXAMPLE, 3) {
        Ok(mut points) => is_joined(&points) & are_differences(&mut points),
        Err(_) => false,
    }
}

#[test]
fn boxes_and_differences_of_a_list(rt: HostRuntime) {
    assert!(rt; are_measured(rt.alloc()));
}

// ---- two points at once, and eight: read at the start of bytes; two added to a flat form, also
// with each growth refused in turn (`make hostile`)

// Whether a point is at this place.
fn is_here(point: Pt, place: (i64, i64)) -> bool {
    (point.x(), point.y()) == place
}

// Whether the first two differences of Google's worked example lead from here to these places, in
// their 14 bytes.
fn leads(from: Pt, first: (i64, i64), second: (i64, i64)) -> bool {
    match two_points::<Leb128>(from, STEPS, 0) {
        Some((there, next, used)) => {
            is_here(there, first) & is_here(next, second) & (used == 14)
        }
        None => false,
    }
}

// Whether they lead to the page's points from (0, 0), and as far from elsewhere; two numbers are
// not four.
fn are_two() -> bool {
    match (Pt::try_new(0, 0), Pt::try_new(-5, 8)) {
        (Some(origin), Some(aside)) => {
            leads(origin, (-12020000, 3850000), (-12095000, 4070000))
                & leads(aside, (-12020005, 3850008), (-12095005, 4070008))
                & two_points::<Leb128>(origin, b"\x02\x04", 0).is_none()
        }
        _ => false,
    }
}

#[test]
fn two_points_are_read_at_the_start_of_bytes(rt: HostRuntime) {
    assert!(rt; are_two());
}

// Steps of one along each axis.
const ONES: [u8; 64] = [2; 64];

// Whether eight such steps lead from (0, 0) to these points.
fn are_ones(eight: Eight) -> bool {
    let mut are_there = (eight.used == 16) & is_here(eight.last, (8, 8));
    let mut place: i64 = 0;
    for point in &eight.points {
        place = place.wrapping_add(1);
        are_there &= is_here(*point, (place, place));
    }
    are_there
}

// Whether eight points are found from here, by the ends of the bytes, and are those from (0, 0).
fn finds_ones(from: Pt) -> bool {
    match eight_points::<Leb128>(from, &ONES, varint_ends(&ONES)) {
        Some(eight) => are_ones(eight),
        None => false,
    }
}

// Whether no eight points are found from here.
fn finds_none(from: Pt) -> bool {
    match eight_points::<Leb128>(from, &ONES, varint_ends(&ONES)) {
        Some(_) => false,
        None => true,
    }
}

// Whether they are found from (0, 0), and not from a point that is no inner one.
fn are_eight() -> bool {
    match (Pt::try_new(0, 0), Pt::try_new(0, 1 << 61)) {
        (Some(origin), Some(outer)) => finds_ones(origin) & finds_none(outer),
        _ => false,
    }
}

#[test]
fn eight_points_are_read_at_the_start_of_bytes(rt: HostRuntime) {
    assert!(rt; are_eight());
}

// A line of three points, as a blob.
const LINE: &[u8] = b"\x02\x00\x03\x02\x04\x06\x08\x0A\x0C";

// The points of the line, and after them the same two points eight times: room for sixteen is
// asked for first, and then for more.
const PLACES: [(i64, i64); 19] = [
    (1, 2),
    (4, 6),
    (9, 12),
    (20, -3),
    (7, 50),
    (20, -3),
    (7, 50),
    (20, -3),
    (7, 50),
    (20, -3),
    (7, 50),
    (20, -3),
    (7, 50),
    (20, -3),
    (7, 50),
    (20, -3),
    (7, 50),
    (20, -3),
    (7, 50),
];

// Whether the points of a form are the first `count` of these places.
fn has_first(flat: &Flat, count: u32) -> bool {
    let mut work = Work::new();
    let mut are_first = flat.point_count() == count;
    for at in 0..flat.point_count() {
        let place = PLACES.get(at as usize).copied().unwrap_or((0, 0));
        are_first &= is_here(flat.point(PointId(at), &mut work), place);
    }
    are_first
}

// Whether two points are added after those of a form; or memory is refused, and the form is unchanged.
fn adds_two(flat: &mut Flat, first: Pt, second: Pt, if_refused: bool) -> bool {
    if !flat.takes_points(2) {
        return false;
    }
    let held = flat.point_count();
    match flat.add_two(first, second) {
        Ok(()) => has_first(flat, held + 2),
        Err(_) => if_refused & has_first(flat, held),
    }
}

// Whether each of eight pairs is added after the line's points, or memory is refused.
fn adds_pairs(flat: &mut Flat, first: Pt, second: Pt, if_refused: bool) -> bool {
    let mut are_added = has_first(flat, 3);
    for _ in 0..8 {
        are_added &= adds_two(flat, first, second, if_refused);
    }
    are_added
}

// Whether the form of the line takes eight pairs.
fn line_takes_pairs(alloc: Global, if_refused: bool) -> bool {
    let mut flat = form(alloc, LINE);
    match (Pt::try_new(20, -3), Pt::try_new(7, 50)) {
        (Some(first), Some(second)) => {
            (flat.is_empty() & if_refused) || adds_pairs(&mut flat, first, second, if_refused)
        }
        _ => false,
    }
}

#[test]
fn two_points_are_added_after_others(rt: HostRuntime) {
    assert!(rt; line_takes_pairs(rt.alloc(), false));
}

#[test]
fn each_growth_of_pairs_may_be_refused(rt: HostRuntime) {
    assert!(rt; line_takes_pairs(rt.alloc(), true));
}
