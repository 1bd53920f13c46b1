//! The blob of a row that is a whole geometry, made without a form.
ghost use Rattle.std.specs.Prelude.{◌≡◌, IfOk, IfSome, drop, true};
ghost use Rattle.twkb_arrays.specs.JudgedRow.{BeginWithRoot, BeginsAlone, BeginsLine, BeginsPoint, IsMadeAlone};
ghost use Rattle.twkb_arrays.specs.JudgedRow.{IsMadeFirst};
ghost use Rattle.twkb_arrays.specs.SentBlobs.{blob_in};

use crate::blob_room::BlobRoom;
use crate::judged_row::are_in_range;
use crate::own_points::PointsInRange;
use crate::row::BufferRow;
use std::alloc::AllocError;
use twkb_buffer::{BufferPoint, as_point};
use twkb_points::Pt;
use twkb_tree::{GREATEST_PRECISION, LEAST_PRECISION, Limits};
use twkb_writer::Style;

// The number of the kind of a point.
const POINT: u16 = 1;

// The number of the kind of a linestring.
const LINESTRING: u16 = 2;

// Whether a row is a root with a precision from -8 to 7 and no id, and names no more points than
// are ahead and than the limits allow. So it begins a geometry, if its kind is one of a geometry
// and may have so many points, and all are in range.
#[inline(always)]
fn begins_alone(limits: Limits, row: &BufferRow, ahead: &[BufferPoint]) -> bool
    ensures { result ≡ true → BeginsAlone limits row.now ahead.now }
{
    if row.depth != 0 || row.has_id != 0 || row.id != 0 {
        return false;
    }
    if row.points > ahead.len() as u64 || row.points > u64::from(limits.points()) {
        return false;
    }
    LEAST_PRECISION <= row.precision && row.precision <= GREATEST_PRECISION
}

// The first of the points ahead, if the row begins the geometry of this one point, within the
// limits. `None` proves nothing.
#[inline(always)]
fn lone_point(limits: Limits, row: &BufferRow, ahead: &[BufferPoint]) -> Option<Pt>
    ensures { IfSome result (λ point. BeginsPoint limits row.now ahead.now point) }
{
    if row.kind != POINT || row.points != 1 || !begins_alone(limits, row, ahead) {
        return None;
    }
    as_point(&ahead[0])
}

// Whether a row begins the geometry of a linestring within the limits, unless one of its points is
// out of range. `false` proves nothing.
#[inline(always)]
fn begins_line(limits: Limits, row: &BufferRow, ahead: &[BufferPoint]) -> bool
    ensures { result ≡ true → BeginsLine limits row.now ahead.now }
{
    row.kind == LINESTRING && begins_alone(limits, row, ahead)
}

// Makes the blob of the linestring that a row begins, if all its points are in range, and returns
// their number; else `None`. For the row `begins_line` must be true. Takes memory. An `Err` is want
// of memory; after it nothing is known of the blob in `room`.
#[inline(always)]
fn make_line(
    limits: Limits,
    style: Style,
    row: &BufferRow,
    ahead: &[BufferPoint],
    room: &mut BlobRoom,
) -> Result<Option<usize>, AllocError>
    requires { BeginsLine limits row.now ahead.now }
    ensures { IfOk result (λ made. IfSome made (λ count.
        IsMadeAlone limits style row.now ahead.now count (blob_in room.new))) }
{
    let count = row.points as usize;
    let own = &ahead[..count];
    if !are_in_range(own) {
        return Ok(None);
    }
    room.make_line(row.precision, &PointsInRange { own }, style)?;
    Ok(Some(count))
}

// Makes the blob of a row that is a root and a point or a linestring, as a geometry that has no
// other row, and returns the number of its points. `None` proves nothing about the row. Takes
// memory. An `Err` is want of memory. After a `None` or an `Err` nothing is known of the blob in
// `room`.
#[inline(always)]
fn make_row(
    limits: Limits,
    style: Style,
    row: &BufferRow,
    ahead: &[BufferPoint],
    room: &mut BlobRoom,
) -> Result<Option<usize>, AllocError>
    ensures { IfOk result (λ made. IfSome made (λ count.
        IsMadeAlone limits style row.now ahead.now count (blob_in room.new))) }
{
    if begins_line(limits, row, ahead) {
        return make_line(limits, style, row, ahead, room);
    }
    let Some(point) = lone_point(limits, row, ahead) else {
        return Ok(None);
    };
    room.make_point(row.precision, point, style)?;
    Ok(Some(1))
}

// Whether there is a second row and it is a root.
#[inline(always)]
fn is_before_root(rows: &[BufferRow]) -> bool
    ensures { result ≡ true → BeginWithRoot (drop 1 rows.now) }
{
    rows.len() > 1 && rows[1].depth == 0
}

// Fast path: makes the blob of the first row if that is a point or a linestring and a whole
// geometry, since the second row is a root; returns the number of its points. `None` proves nothing
// about the row. Takes memory. An `Err` is want of memory. After a `None` or an `Err` nothing is
// known of the blob in `room`.
#[inline(always)]
pub(crate) fn make_first(
    limits: Limits,
    style: Style,
    rows: &[BufferRow],
    ahead: &[BufferPoint],
    room: &mut BlobRoom,
) -> Result<Option<usize>, AllocError>
    ensures { IfOk result (λ made. IfSome made (λ count.
        IsMadeFirst limits style rows.now ahead.now count (blob_in room.new))) }
{
    if !is_before_root(rows) {
        return Ok(None);
    }
    make_row(limits, style, &rows[0], ahead, room)
}
