//! Points of a buffer as an encoded polyline in another, and back.
ghost use Rattle.std.specs.Prelude.{◌≡◌, ◌↔◌, IfErr, IfOk, IfSome, IsSome};
ghost use Rattle.twkb_points.specs.Point.{IsInRange, point_at};
ghost use Rattle.twkb_buffer.specs.Polylines.{ArePoints, DecodesSlice, EncodesSlice, Puts, IsRefusedPoint};
ghost use Rattle.twkb_buffer.specs.Polylines.{coordinates_at, coordinates_of};

use crate::point::BufferPoint;
use crate::reason_numbers::{MEMORY, REFUSED, TOO_SMALL, point_text_number};
use crate::report::{BufferReport, finished, nothing_put};
use std::alloc::{AllocError, Global};
use twkb_points::{PointTail, Pt};
use twkb_polyline::{PolyFault, PolyReason, decode, encode};

/// The point with these coordinates; `None` if one is outside -2^62 to 2^62 - 1. Takes no memory.
#[inline(always)]
pub fn as_point(coordinates: &BufferPoint) -> Option<Pt>
    ensures range { IsSome result ↔ IsInRange (point_at coordinates.now.x coordinates.now.y) }
    ensures in_range { IfSome result IsInRange }
    ensures value { IfSome result (λ point. coordinates_at point ≡ coordinates.now) }
{
    Pt::try_new(coordinates.x, coordinates.y)
}

// The points with these coordinates. Takes memory. An `Err` is `Memory`, or `At` with the index of
// the first point that is out of range, counted from 0, as its offset.
fn points_at(alloc: Global, given: &[BufferPoint]) -> Result<Vec<Pt>, PolyFault>
    ensures points { IfOk result (λ points. ArePoints given.now points.items) }
    ensures refused { IfErr result (IsRefusedPoint given.now) }
{
    let mut points = Vec::new(alloc);
    for coordinates in given {
        let Some(point) = as_point(coordinates) else {
            return Err(PolyFault::At {
                offset: points.count(),
                reason: PolyReason::Range,
            });
        };
        points.put(point)?;
    }
    Ok(points)
}

/// The coordinates of a point, in C's layout. Takes no memory.
#[inline(always)]
pub fn as_coordinates(point: Pt) -> BufferPoint
    ensures { result ≡ coordinates_at point }
{
    BufferPoint {
        x: point.x(),
        y: point.y(),
    }
}

// The coordinates of points, in C's layout, in a vector that it makes. Takes memory.
fn coordinates(alloc: Global, points: &[Pt]) -> Result<Vec<BufferPoint>, AllocError>
    ensures { IfOk result (λ coordinates. coordinates.items ≡ coordinates_of points.now) }
{
    let mut coordinates = Vec::new(alloc);
    for point in points {
        coordinates.push(as_coordinates(*point))?;
    }
    Ok(coordinates)
}

// Copies a list to the start of a slice, if there is room for all of it, and reports status 0,
// `done` 1 and as `sent` the list's length; else writes nothing, and reports status 5 and 0 for
// both. `needed` is the list's length in both cases.
fn put_whole<T: Copy>(whole: &[T], output: &mut [T]) -> BufferReport
    ensures { Puts whole.now output.old output.new result }
{
    let count = whole.len();
    if output.len() < count {
        return nothing_put(TOO_SMALL, count as u64);
    }
    output[..count].copy_from_slice(whole);
    finished(1, count as u64)
}

/// Writes the encoded polyline of points to the start of a slice, if there is room for all of it;
/// else writes nothing, and reports status 5 and the bytes needed. If a point is out of range,
/// reports status 1, and as the place the index of the first such point, counted from 0; if memory
/// is refused, status 4. Takes memory for the points and the text.
pub fn fill_polyline(alloc: Global, given: &[BufferPoint], output: &mut [u8]) -> BufferReport
    ensures { EncodesSlice given.now output.old output.new result }
{
    let points = match points_at(alloc, given) {
        Ok(points) => points,
        Err(PolyFault::Memory) => return nothing_put(MEMORY, 0),
        Err(PolyFault::At { offset, reason }) => {
            return BufferReport {
                reason: point_text_number(reason),
                place: offset as u64,
                ..nothing_put(REFUSED, 0)
            };
        }
    };
    match encode(alloc, &points) {
        Ok(text) => put_whole(&text, output),
        Err(_) => nothing_put(MEMORY, 0),
    }
}

/// Writes the points of an encoded polyline to the start of a slice, if there is room for all of
/// them; else writes nothing, and reports status 5 and the number of points. If the text is
/// refused, reports status 1, the reason and the offset in the text; if memory is refused, status
/// 4. Takes memory for the points, twice.
pub fn fill_points(alloc: Global, text: &[u8], output: &mut [BufferPoint]) -> BufferReport
    ensures { DecodesSlice text.now output.old output.new result }
{
    let points = match decode(alloc, text, u32::MAX) {
        Ok(points) => points,
        Err(PolyFault::Memory) => return nothing_put(MEMORY, 0),
        Err(PolyFault::At { offset, reason }) => {
            return BufferReport {
                reason: point_text_number(reason),
                text_offset: offset as u64,
                ..nothing_put(REFUSED, 0)
            };
        }
    };
    match coordinates(alloc, &points) {
        Ok(coordinates) => put_whole(&coordinates, output),
        Err(_) => nothing_put(MEMORY, 0),
    }
}
