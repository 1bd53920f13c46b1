//! Filling a flat form with the rows of a geometry.
ghost use Rattle.std.specs.Prelude.{◌≡◌, ◌++◌, OnOk, IfOk};
ghost use Rattle.twkb_tree.specs.Limits.{largest_limits, IsValid};
ghost use Rattle.twkb_tree.specs.Tree.{trees};
ghost use Rattle.twkb_tree.specs.Rows.{rows, rows_with, rows_under, own_row, member_rows, rows_of_each};
ghost use Rattle.twkb_tree.specs.Rows.{AreValidRowsOfOne};
ghost use Rattle.twkb_flat.specs.Taking.{IsSimple, component_rows};
ghost use Rattle.twkb_flat.specs.Rows.{row_with};

use crate::components::Component;
use crate::flat::Flat;
use crate::node::Row;
use std::alloc::{AllocError, Global};
use twkb_points::Pt;
use twkb_tree::{Geometry, Ids, Kind, Members, Shape, id_at, own_parts};

impl Flat {
    /// Makes the flat form of a geometry, which must be within `Limits::largest()`. Takes memory;
    /// an `Err` is that memory was refused.
    pub fn from_geometry(alloc: Global, geometry: &Geometry) -> Result<Flat, AllocError>
        requires { IsValid largest_limits geometry.now }
        ensures { IfOk result (λ flat. flat ≡ rows 0 geometry.now) }
    {
        let mut flat = Flat::new(alloc);
        push_geometry(geometry, 0, None, &mut flat)?;
        Ok(flat)
    }
}

// Appends the rows of a geometry to the form: its own row, with this id and at this depth, and the
// rows below it. They must continue the form's rows within `Limits::largest()`. Takes memory; after
// an `Err` some of them may be appended.
#[cycle(filling)]
fn push_geometry(
    geometry: &Geometry,
    depth: u32,
    id: Option<i64>,
    flat: &mut Flat,
) -> Result<(), AllocError>
    requires { AreValidRowsOfOne largest_limits (flat.old ++ rows_with id depth geometry.now) }
    ensures { OnOk result (flat.new ≡ flat.old ++ rows_with id depth geometry.now) }
{
    let (row, points) = own_row(geometry, depth, id);
    flat.push(row, points)?;
    let below = depth + 1;
    push_under(geometry, below, flat)
}

/// The geometry's own row, with this depth and id, and the points of that row: those of a point or
/// a linestring, none for another kind. Takes no memory.
pub fn own_row(geometry: &Geometry, depth: u32, id: Option<i64>) -> (Row, &[Pt])
    ensures { row_with result.0 result.1.now ≡ own_row id depth geometry.now }
{
    let (kind, points) = own_parts(geometry.shape());
    let precision = Some(geometry.precision());
    let row = Row {
        depth,
        kind,
        id,
        precision,
    };
    (row, points)
}

// Appends the rows below a geometry's own row to the form: those of its rings or members, each of
// them at `depth`, and the rows below them. They must continue the form's rows within
// `Limits::largest()`. Takes memory; after an `Err` some of them may be appended.
#[cycle(filling)]
fn push_under(geometry: &Geometry, depth: u32, flat: &mut Flat) -> Result<(), AllocError>
    requires { AreValidRowsOfOne largest_limits (flat.old ++ rows_under depth geometry.now) }
    ensures { OnOk result (flat.new ≡ flat.old ++ rows_under depth geometry.now) }
{
    match geometry.shape() {
        Shape::Collection(members, ids) => push_members(members, depth, ids, flat),
        _ => push_components(geometry, depth, flat),
    }
}

// Appends the rows below the own row of a geometry, which must not be a collection, as `push_under`
// does. They must continue the form's rows within `Limits::largest()`. Takes memory; after an `Err`
// some of them may be appended.
fn push_components(geometry: &Geometry, depth: u32, flat: &mut Flat) -> Result<(), AllocError>
    requires valid { AreValidRowsOfOne largest_limits (flat.old ++ rows_under depth geometry.now) }
    requires no_collection { IsSimple geometry.now }
    ensures { OnOk result (flat.new ≡ flat.old ++ rows_under depth geometry.now) }
{
    match geometry.shape() {
        Shape::Point(_) | Shape::Line(_) => Ok(()),
        Shape::Polygon(rings) => push_each(Kind::Ring, depth, rings.as_slice(), &None, flat),
        Shape::MultiPoint(points, ids) => {
            push_each(Kind::Point, depth, points.as_slice(), ids, flat)
        }
        Shape::MultiLine(lines, ids) => {
            push_each(Kind::Linestring, depth, lines.as_slice(), ids, flat)
        }
        Shape::MultiPolygon(areas, ids) => {
            push_each(Kind::Polygon, depth, areas.as_slice(), ids, flat)
        }
        Shape::Collection(..) => unreachable!(),
    }
}

// Appends the rows of the members of a collection to the form: each member's own row at `depth`,
// with its id if there are ids, and the rows below it. They must continue the form's rows within
// `Limits::largest()`. Takes memory; after an `Err` some of them may be appended.
#[cycle(filling)]
#[tactic(auto, using(twkb_tree::specs::Size::member_smaller))]
fn push_members(members: &Members, depth: u32, ids: &Ids, flat: &mut Flat) -> Result<(), AllocError>
    requires { AreValidRowsOfOne largest_limits (flat.old ++ member_rows depth ids.now (trees members.now)) }
    ensures { OnOk result (flat.new ≡ flat.old ++ member_rows depth ids.now (trees members.now)) }
{
    let mut index = 0;
    for member in members.as_slice() {
        let id = id_at(ids, index);
        push_geometry(member, depth, id, flat)?;
        index += 1;
    }
    Ok(())
}

// Appends the rows of components of this kind to the form: each component's own row at `depth`,
// with its id if there are ids, and the rows below it. They must continue the form's rows within
// `Limits::largest()`. Takes memory; after an `Err` some of them may be appended.
pub(crate) fn push_each<T: Component>(
    kind: Kind,
    depth: u32,
    components: &[T],
    ids: &Ids,
    flat: &mut Flat,
) -> Result<(), AllocError>
    requires { AreValidRowsOfOne largest_limits (flat.old ++ rows_of_each
        (component_rows T.own T.below kind depth) ids.now components.now) }
    ensures { OnOk result (flat.new ≡ flat.old ++ rows_of_each
        (component_rows T.own T.below kind depth) ids.now components.now) }
{
    let mut index = 0;
    for component in components {
        let id = id_at(ids, index);
        flat.push(
            Row {
                depth,
                kind,
                id,
                precision: None,
            },
            component.own_points(),
        )?;
        component.push_below(depth + 1, flat)?;
        index += 1;
    }
    Ok(())
}
