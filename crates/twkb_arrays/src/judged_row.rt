//! The row of a geometry that a row of an array stands for, and the reason to refuse it.
ghost use Rattle.std.specs.Prelude.{◌≡◌, ◌↔◌, ◌<◌, ◌^◌, [], List, IsTrue, MatchOption, length};
ghost use Rattle.twkb_points.specs.Point.{IsCoordinate, IsInRange};
ghost use Rattle.twkb_tree.specs.declared.kind.Kind.{Kind};
ghost use Rattle.twkb_tree.specs.Refusal.{are_in_range};
ghost use Rattle.twkb_tree.specs.Open.{points_checks};
ghost use Rattle.twkb_flat.specs.Rows.{row_with};
ghost use Rattle.twkb_flat.specs.declared.stop.Stop.TheVariants.{Refused};
ghost use Rattle.twkb_buffer.specs.Numbers.{row_number_of};
ghost use Rattle.twkb_buffer.specs.declared.point.BufferPoint.{BufferPoint as InPoint};
ghost use Rattle.twkb_arrays.specs.Rows.{kind_number, point_of, points_of};
ghost use Rattle.twkb_arrays.specs.JudgedRow.{AreBelow, HasRightId, in_range_front, index_outside, row_from_c};
ghost use Rattle.twkb_arrays.specs.JudgedRow.{IsFirstButRange, checks_there};

use crate::row::{BufferRow, NO_PRECISION};
use std::simd::u64x2;
use std::slice::from_ref;
use twkb_buffer::{BufferPoint, row_number};
use twkb_convert::{PolyReason, RowReason};
use twkb_flat::{Row, Stop};
use twkb_points::COORDINATE_BOUND;
use twkb_table::reason_of;
use twkb_tree::row_checks::{Refusal, field_refusal, points_refusal};
use twkb_tree::{Kind, Limits, RowPlace};

// The reason for which a row with a point out of range is refused. There is no text, and so no
// place in one.
pub(crate) const OUT_OF_RANGE: RowReason = RowReason::Polyline(0, PolyReason::Range);

// The refusal of a row of an array, or of its points, for the reason for which a table's row is
// refused: with the number of that reason.
#[inline(always)]
pub(crate) fn refused(reason: RowReason) -> Stop<u32>
    ensures { result ≡ Refused (row_number_of reason) }
{
    Stop::Refused(row_number(reason))
}

// The kind with this number: 1 to 7 as in TWKB, and 8 for a ring; `None` for any other number.
#[inline(always)]
pub(crate) fn kind_of(number: u16) -> Option<Kind>
    ensures { MatchOption result ((k : Kind) → ¬ (kind_number k ≡ number)) (λ k. kind_number k ≡ number) }
{
    match number {
        1 => Some(Kind::Point),
        2 => Some(Kind::Linestring),
        3 => Some(Kind::Polygon),
        4 => Some(Kind::MultiPoint),
        5 => Some(Kind::MultiLinestring),
        6 => Some(Kind::MultiPolygon),
        7 => Some(Kind::Collection),
        8 => Some(Kind::Ring),
        _ => None,
    }
}

// Whether a row says that it has an id, by 1 in `has_id`, or that it has none, by 0 there and in
// `id`.
#[inline(always)]
pub(crate) fn has_right_id(row: &BufferRow) -> bool
    ensures { IsTrue result ↔ HasRightId row.now }
{
    if row.has_id == 1 {
        return true;
    }
    if row.has_id > 1 {
        return false;
    }
    row.id == 0
}

// The row of a geometry that a row of an array stands for, which has this kind, without its points.
#[inline(always)]
pub(crate) fn bare_row(row: &BufferRow, kind: Kind) -> Row
    ensures { (own : List InPoint) → row_with result (points_of own) ≡ row_from_c kind row.now own }
{
    let id = if row.has_id == 0 { None } else { Some(row.id) };
    let precision = if row.precision == NO_PRECISION {
        None
    } else {
        Some(row.precision)
    };
    Row {
        depth: row.depth,
        kind,
        id,
        precision,
    }
}

// A coordinate plus 2^62, modulo 2^64: below 2^63 if the coordinate is in range, -2^62 to 2^62 - 1,
// and 2^63 or more if not.
#[inline(always)]
fn above_least(coordinate: i64) -> u64
    ensures { (result < 2 ^ 63) ↔ IsCoordinate coordinate }
{
    coordinate.cast_unsigned().wrapping_add(COORDINATE_BOUND)
}

// Both coordinates of a point plus 2^62, modulo 2^64: each sum is below 2^63 if its coordinate is
// in range, and 2^63 or more if not.
#[inline(always)]
fn both_above_least(point: &BufferPoint) -> u64x2
    ensures two { length result ≡ 2 }
    ensures value { AreBelow result ↔ IsInRange (point_of point.now) }
{
    u64x2::from_array([above_least(point.x), above_least(point.y)])
}

// Whether the coordinates of all points are from -2^62 to 2^62 - 1. Every point is looked at, both
// coordinates together, so that several points are tested at once.
#[inline(always)]
pub(crate) fn are_in_range(own: &[BufferPoint]) -> bool
    ensures { result ≡ are_in_range (points_of own.now) }
{
    let mut joined = u64x2::splat(0);
    for point in own {
        joined |= both_above_least(point);
    }
    let [x, y] = joined.to_array();
    x | y < 1 << 63
}

// The number of points before the first one that is out of range; that of all points if none is.
fn in_range_front(points: &[BufferPoint]) -> usize
    ensures { result ≡ in_range_front points.now }
{
    let mut count = 0;
    for point in points {
        if !are_in_range(from_ref(point)) {
            return count;
        }
        count += 1;
    }
    count
}

// If a row is refused since a point is out of range, as this number says, the index of its first
// such point, counted from 0; else 0. `ahead` has the points from the row's first one on.
pub(crate) fn index_outside(number: u32, ahead: &[BufferPoint]) -> usize
    ensures { result ≡ index_outside number ahead.now }
{
    if number == row_number(OUT_OF_RANGE) {
        in_range_front(ahead)
    } else {
        0
    }
}

// The first reason why a row may not have these points at this place, within the limits; `None` if
// it may, or if the only reason is that a point is out of range. Points are looked at only if their
// number is refused.
#[inline(always)]
fn refused_points(
    limits: &Limits,
    row_place: &RowPlace,
    row: &Row,
    own: &[BufferPoint],
) -> Option<RowReason>
    ensures { IsFirstButRange (points_checks (are_in_range (points_of own.now)) limits.now row_place.now
        (row_with row.now (points_of own.now))) (points_of own.now) result }
{
    let Some(refusal) = points_refusal(limits, row_place, row.kind, own.len()) else {
        return None;
    };
    match refusal {
        Refusal::PointsNotAllowed => Some(RowReason::PolylineNotAllowed),
        _ => {
            if are_in_range(own) {
                Some(reason_of(refusal))
            } else {
                Some(OUT_OF_RANGE)
            }
        }
    }
}

// The first reason why a row with these points may not come at this place, within the limits;
// `None` if it may, or if the only reason is that a point is out of range. The row's depth is taken
// to be that of the place.
#[inline(always)]
pub(crate) fn refused_row(
    limits: &Limits,
    row_place: &RowPlace,
    row: &Row,
    own: &[BufferPoint],
) -> Option<RowReason>
    ensures { IsFirstButRange (checks_there limits.now row_place.now
        (row_with row.now (points_of own.now))) (points_of own.now) result }
{
    if let Some(refusal) = field_refusal(limits, row_place, row.kind, row.id, row.precision) {
        return Some(reason_of(refusal));
    }
    refused_points(limits, row_place, row, own)
}
