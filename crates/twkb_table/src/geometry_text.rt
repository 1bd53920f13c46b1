//! The rows of a geometry as text, written by the writer of `csv`. Each private function takes
//! memory, and must get a writer that is between two records, and that is not used any more after
//! an `Err`.
ghost use Rattle.std.specs.Prelude.{◌≡◌, ◌≤◌, ◌<◌, ◌+◌, ◌^◌, ◌∷◌, [], ◌++◌, map, OnOk, OnErr, IfOk};
ghost use Rattle.twkb_tree.specs.Limits.{largest_limits};
ghost use Rattle.twkb_tree.specs.Tree.{nest, nest_all, trees};
ghost use Rattle.twkb_tree.specs.Rows.{rows, rows_with, member_rows, rows_of_each, plain_row, polygon_rows};
ghost use Rattle.twkb_tree.specs.declared.kind.Kind.{Kind};
ghost use Rattle.twkb_table.specs.Record.{record_of};
ghost use Rattle.twkb_table.specs.Text.{csvtext, row_lines, IsReady, Writes};

use crate::record_writer::RecordWriter;
use std::alloc::{AllocError, Global};
use std::slice::from_ref;
use twkb_flat::{Row, own_row};
use twkb_points::Pt;
use twkb_tree::{Geometry, Ids, Kind, Lines, Members, Pts, Shape, id_at};

/// Returns the lines of a geometry's rows, each ended by LF, without the header's line (profile;
/// their polylines: Encoded Polyline Algorithm Format). The geometry must nest no deeper than the
/// largest limits allow: at most 32 collections around a member. Takes memory for the text and for
/// the longest polyline.
#[tactic(auto, unfolding(crate::specs::Text::row_lines))]
pub fn rows_text(alloc: Global, geometry: &Geometry) -> Result<Vec<u8>, AllocError>
    requires nest { nest geometry.now ≤ largest_limits.nest }
    ensures { IfOk result (λ text. text.items ≡ csvtext (map record_of (rows 0 geometry.now))) }
{
    let mut records = RecordWriter::new(alloc);
    write_geometry(geometry, 0, None, &mut records)?;
    records.into_text()
}

/// Appends the lines of a geometry's rows that `rows_text` returns, with the same bound on its
/// nesting. Takes memory as `rows_text` does, and for the text; if it is refused, the text is as it
/// was.
pub fn put_rows(geometry: &Geometry, text: &mut Vec<u8>) -> Result<(), AllocError>
    requires nest { nest geometry.now ≤ largest_limits.nest }
    ensures appended { OnOk result (text.new.items ≡ text.old.items ++ csvtext (map record_of (rows 0 geometry.now))) }
    ensures same { OnErr result (text.new.items ≡ text.old.items) }
{
    let lines = rows_text(*text.allocator(), geometry)?;
    text.extend_from_slice(&lines)
}

// Writes the records of a geometry with this id at this depth, and of its parts and members below
// it. Its depth and its nesting must together be below 2^31. Takes memory for the text and for the
// longest polyline.
#[cycle(lines)]
fn write_geometry(
    geometry: &Geometry,
    depth: u32,
    id: Option<i64>,
    records: &mut RecordWriter,
) -> Result<(), AllocError>
    requires nest { depth + nest geometry.now < 2 ^ 31 }
    requires ready { IsReady records.old.writer }
    ensures { OnOk result (Writes records.old.writer records.new.writer (row_lines (rows_with id depth geometry.now))) }
{
    let (row, points) = own_row(geometry, depth, id);
    records.write_row(&row, points)?;
    let below = depth + 1;
    match geometry.shape() {
        Shape::Point(_) | Shape::Line(_) => Ok(()),
        Shape::Polygon(rings) => write_lines(below, Kind::Ring, rings.as_slice(), &None, records),
        Shape::MultiPoint(points, ids) => write_points(below, points.as_slice(), ids, records),
        Shape::MultiLine(lines, ids) => {
            write_lines(below, Kind::Linestring, lines.as_slice(), ids, records)
        }
        Shape::MultiPolygon(areas, ids) => write_areas(below, areas.as_slice(), ids, records),
        Shape::Collection(members, ids) => write_members(below, members, ids, records),
    }
}

// Writes the record of a row with this depth, kind and id and with these points, and with no
// precision: a part of a geometry has none. Takes memory for the text and for the polyline.
fn write_part(
    depth: u32,
    kind: Kind,
    id: Option<i64>,
    points: &[Pt],
    records: &mut RecordWriter,
) -> Result<(), AllocError>
    requires ready { IsReady records.old.writer }
    ensures { OnOk result (Writes records.old.writer records.new.writer
        (row_lines (plain_row depth kind id points.now ∷ []))) }
{
    let row = Row {
        depth,
        kind,
        id,
        precision: None,
    };
    records.write_row(&row, points)
}

// Writes the records of the members of a collection, with these ids, at this depth, and of all that
// is below them. The depth and the nesting of the members must together be at most 2^31. Takes
// memory for the text and for the longest polyline.
#[cycle(lines)]
#[tactic(auto, using(twkb_tree::specs::Size::member_smaller))]
fn write_members(
    depth: u32,
    members: &Members,
    ids: &Ids,
    records: &mut RecordWriter,
) -> Result<(), AllocError>
    requires nest { depth + nest_all (trees members.now) ≤ 2 ^ 31 }
    requires ready { IsReady records.old.writer }
    ensures { OnOk result (Writes records.old.writer records.new.writer
        (row_lines (member_rows depth ids.now (trees members.now)))) }
{
    let mut index = 0;
    for member in members.as_slice() {
        write_geometry(member, depth, id_at(ids, index), records)?;
        index += 1;
    }
    Ok(())
}

// Writes the records of the polygons of a multipolygon, with these ids, at this depth, which must
// be below 2^32 - 1, and of their rings, one deeper. Takes memory for the text and for the longest
// polyline.
fn write_areas(
    depth: u32,
    areas: &[Lines],
    ids: &Ids,
    records: &mut RecordWriter,
) -> Result<(), AllocError>
    requires depth { depth + 1 < 2 ^ 32 }
    requires ready { IsReady records.old.writer }
    ensures { OnOk result (Writes records.old.writer records.new.writer
        (row_lines (rows_of_each (polygon_rows depth) ids.now areas.now))) }
{
    let mut index = 0;
    for rings in areas {
        write_part(depth, Kind::Polygon, id_at(ids, index), &[], records)?;
        write_lines(depth + 1, Kind::Ring, rings.as_slice(), &None, records)?;
        index += 1;
    }
    Ok(())
}

// Writes the records of parts of this kind, with these ids, at this depth, each a list of points:
// the rings of a polygon, or the linestrings of a multilinestring. Takes memory for the text and
// for the longest polyline.
fn write_lines(
    depth: u32,
    kind: Kind,
    lines: &[Pts],
    ids: &Ids,
    records: &mut RecordWriter,
) -> Result<(), AllocError>
    requires ready { IsReady records.old.writer }
    ensures { OnOk result (Writes records.old.writer records.new.writer
        (row_lines (rows_of_each (λ id ps. plain_row depth kind id ps ∷ []) ids.now lines.now))) }
{
    let mut index = 0;
    for line in lines {
        write_part(depth, kind, id_at(ids, index), line.as_slice(), records)?;
        index += 1;
    }
    Ok(())
}

// Writes the records of the points of a multipoint, with these ids, at this depth. Takes memory for
// the text and for a polyline.
fn write_points(
    depth: u32,
    points: &[Pt],
    ids: &Ids,
    records: &mut RecordWriter,
) -> Result<(), AllocError>
    requires ready { IsReady records.old.writer }
    ensures { OnOk result (Writes records.old.writer records.new.writer
        (row_lines (rows_of_each (λ id p. plain_row depth Kind.Point id (p ∷ []) ∷ []) ids.now
        points.now))) }
{
    let mut index = 0;
    for point in points {
        let id = id_at(ids, index);
        write_part(depth, Kind::Point, id, from_ref(point), records)?;
        index += 1;
    }
    Ok(())
}
