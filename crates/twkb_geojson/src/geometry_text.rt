//! The text of a geometry from its tree.
ghost use Rattle.std.specs.Prelude.{◌≡◌, ◌++◌, ℤ, OnOk};
ghost use Rattle.twkb_tree.specs.Tree.{collection, trees};
ghost use Rattle.twkb_geojson.specs.Value.{geojson, value_of};
ghost use Rattle.twkb_geojson.specs.Text.{listed, Grows};

use crate::lists::put_comma;
use crate::members::put_start;
use crate::simple_text::{
    put_empty_point, put_line, put_multi_line, put_multi_point, put_multi_polygon, put_point,
    put_polygon,
};
use std::alloc::AllocError;
use twkb_tree::{Geometry, Ids, Kind, Members, Shape};

/// Appends the text of a geometry (RFC 7946, section 3.1; without blanks; the member `ids`:
/// profile). Takes memory for the text alone; after an `Err` a prefix of the text may be appended.
#[cycle(text)]
pub fn put_geometry(geometry: &Geometry, text: &mut Vec<u8>) -> Result<(), AllocError>
    ensures appended { OnOk result (text.new.items ≡ text.old.items ++ geojson geometry.now) }
    ensures grown { Grows text.old.items text.new.items }
{
    let precision = geometry.precision();
    match geometry.shape() {
        Shape::Point(None) => put_empty_point(text),
        Shape::Point(Some(point)) => put_point(precision, *point, text),
        Shape::Line(points) => put_line(precision, points.as_slice(), text),
        Shape::Polygon(rings) => put_polygon(precision, rings.as_slice(), text),
        Shape::MultiPoint(points, ids) => put_multi_point(precision, points.as_slice(), ids, text),
        Shape::MultiLine(lines, ids) => put_multi_line(precision, lines.as_slice(), ids, text),
        Shape::MultiPolygon(areas, ids) => {
            put_multi_polygon(precision, areas.as_slice(), ids, text)
        }
        Shape::Collection(members, ids) => put_collection(members, ids, text),
    }
}

// Appends the text of a collection with these members and ids. Takes memory; after an `Err` a
// prefix of the text may be appended.
#[cycle(text)]
fn put_collection(members: &Members, ids: &Ids, text: &mut Vec<u8>) -> Result<(), AllocError>
    ensures appended { OnOk result ((p : ℤ) → text.new.items
        ≡ text.old.items ++ geojson (collection p ids.now (trees members.now))) }
    ensures grown { Grows text.old.items text.new.items }
{
    put_start(Kind::Collection, ids, text)?;
    text.push(b'[')?;
    list_members(members, text)?;
    text.extend_from_slice(b"]}")?;
    Ok(())
}

// Appends the texts of members, with a comma between them. Takes memory; after an `Err` a prefix
// may be appended.
#[cycle(text)]
#[tactic(auto, using(twkb_tree::specs::Size::member_smaller))]
fn list_members(members: &Members, text: &mut Vec<u8>) -> Result<(), AllocError>
    ensures appended { OnOk result (text.new.items ≡ text.old.items ++ listed value_of members.now) }
    ensures grown { Grows text.old.items text.new.items }
{
    let mut index = 0;
    for member in members.as_slice() {
        put_comma(index, text)?;
        put_geometry(member, text)?;
        index += 1;
    }
    Ok(())
}
