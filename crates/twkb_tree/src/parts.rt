//! The kind and the points of a geometry's own row, and the ids of its members by their places.
ghost use Rattle.std.specs.Prelude.{◌≡◌, ℕ, ℤ, Option};
ghost use Rattle.twkb_tree.specs.Rows.{first_id, ids_from, own_row, whole_row};
ghost use Rattle.twkb_tree.specs.Shape.{tree_of};

use crate::geometry::Shape;
use crate::kind::Kind;
use crate::lists::Ids;
use std::slice::from_ref;
use twkb_points::Pt;

/// The kind of a geometry of this shape, and the points of its own row in a table: those of a point
/// or a linestring, and none for any other shape. Takes no memory.
pub fn own_parts(shape: &Shape) -> (Kind, &[Pt])
    ensures { (p : ℤ) (id : Option ℤ) (depth : ℕ)
        → own_row id depth (tree_of p shape.now) ≡ whole_row depth result.0 id p result.1.now }
{
    match shape {
        Shape::Point(None) => (Kind::Point, &[]),
        Shape::Point(Some(point)) => (Kind::Point, from_ref(point)),
        Shape::Line(points) => (Kind::Linestring, points.as_slice()),
        Shape::Polygon(_) => (Kind::Polygon, &[]),
        Shape::MultiPoint(_, _) => (Kind::MultiPoint, &[]),
        Shape::MultiLine(_, _) => (Kind::MultiLinestring, &[]),
        Shape::MultiPolygon(_, _) => (Kind::MultiPolygon, &[]),
        Shape::Collection(_, _) => (Kind::Collection, &[]),
    }
}

/// The id of the member at place `index`, from 0; `None` if the members have no ids, or at most
/// `index` of them. Takes no memory.
pub fn id_at(ids: &Ids, index: usize) -> Option<i64>
    ensures { result ≡ first_id (ids_from index ids.now) }
{
    ids.as_ref()?.as_slice().get(index).copied()
}
