//! Rows that a reader appends to a flat form.
ghost use Rattle.std.specs.Prelude.{◌≡◌, ◌++◌, ◌∷◌, [], OnOk, OnErr};
ghost use Rattle.twkb_tree.specs.Rows.{plain_row};
ghost use Rattle.twkb_tree.specs.Limits.{largest_limits};
ghost use Rattle.twkb_tree.specs.Admits.{Continues};
ghost use Rattle.twkb_flat.specs.Rows.{row_with};
ghost use Rattle.twkb_body.specs.Growing.{applied, point_change, list_row, own_of, Admits};
ghost use Rattle.twkb_body.specs.Header.{form_of, kind_of, IsTyped, IsBodied};

use crate::head::Head;
use std::alloc::AllocError;
use twkb_flat::{Flat, Row};
use twkb_points::Pt;
use twkb_tree::Kind;

/// Appends a row without points, which the form must admit. Takes memory; an `Err` changes nothing.
// Not inlined, since the push of a row is large.
#[inline(never)]
pub fn push_row(flat: &mut Flat, row: Row) -> Result<(), AllocError>
    requires { Continues largest_limits flat.old (row_with row []) }
    ensures pushed { OnOk result (flat.new ≡ flat.old ++ row_with row [] ∷ []) }
    ensures same { OnErr result (flat.new ≡ flat.old) }
{
    flat.push(row, &[])
}

/// Appends a row with one point, which the form must admit. Takes memory; an `Err` changes nothing.
#[inline(never)]
pub fn push_point_row(flat: &mut Flat, row: Row, point: Pt) -> Result<(), AllocError>
    requires { Continues largest_limits flat.old (row_with row (point ∷ [])) }
    ensures pushed { OnOk result (flat.new ≡ flat.old ++ row_with row (point ∷ []) ∷ []) }
    ensures same { OnErr result (flat.new ≡ flat.old) }
{
    flat.push(row, &[point])
}

/// Adds a point of the geometry with this header to the form, which must admit it: for a point, the
/// geometry's own row with it; for a multipoint, the row of a member with the id `member`; for
/// another kind, the point goes to the last row. Takes memory; an `Err` changes nothing.
#[inline(always)]
pub fn put_point(
    flat: &mut Flat,
    head: &Head,
    member: Option<i64>,
    point: Pt,
) -> Result<(), AllocError>
    requires { Admits (point_change point head.now.depth head.now.id head.now.precision
        (form_of head.now.kind) member) flat.old }
    ensures put { OnOk result (flat.new ≡ applied
        (point_change point head.now.depth head.now.id head.now.precision (form_of head.now.kind)
        member) flat.old) }
    ensures same { OnErr result (flat.new ≡ flat.old) }
{
    match head.kind {
        Kind::Point => push_point_row(flat, own_row(head), point),
        Kind::MultiPoint => push_point_row(
            flat,
            component_row(head.depth + 1, Kind::Point, member),
            point,
        ),
        _ => flat.add_point(point),
    }
}

/// The own row of the geometry with this header, whose kind must not be `Ring`, without points.
/// Takes no memory.
#[inline]
pub fn own_row(head: &Head) -> Row
    requires { IsTyped head.now.kind }
    ensures { row_with result [] ≡ own_of head.now.depth head.now.id (kind_of head.now.kind) head.now.precision }
{
    Row {
        depth: head.depth,
        kind: head.kind,
        id: head.id,
        precision: Some(head.precision),
    }
}

// Makes the row, without points, of a ring or of a member of a multi-geometry, which has no
// precision of its own.
fn component_row(depth: u32, kind: Kind, id: Option<i64>) -> Row
    ensures { row_with result [] ≡ plain_row depth kind id [] }
{
    Row {
        depth,
        kind,
        id,
        precision: None,
    }
}

/// The row, without points, of a list of points in the geometry with this header: a ring of a
/// polygon or multipolygon, the member with the id `member` of a multilinestring, and else the
/// geometry itself. Its kind must not be `Collection` or `Ring`. Takes no memory.
#[inline]
pub fn line_row(head: &Head, member: Option<i64>) -> Row
    requires { IsBodied head.now.kind }
    ensures { row_with result [] ≡ list_row head.now.depth head.now.id head.now.precision
        (form_of head.now.kind) member 0 }
{
    match head.kind {
        Kind::Polygon => component_row(head.depth + 1, Kind::Ring, None),
        Kind::MultiLinestring => component_row(head.depth + 1, Kind::Linestring, member),
        Kind::MultiPolygon => component_row(head.depth + 2, Kind::Ring, None),
        _ => own_row(head),
    }
}

/// The row, without points, of a list of rings in the geometry with this header: the member with
/// the id `member` of a multipolygon, and else the geometry itself. Its kind must not be
/// `Collection` or `Ring`. Takes no memory.
#[inline]
pub fn ring_list_row(head: &Head, member: Option<i64>) -> Row
    requires { IsBodied head.now.kind }
    ensures { row_with result [] ≡ list_row head.now.depth head.now.id head.now.precision
        (form_of head.now.kind) member 1 }
{
    match head.kind {
        Kind::MultiPolygon => component_row(head.depth + 1, Kind::Polygon, member),
        _ => own_row(head),
    }
}
