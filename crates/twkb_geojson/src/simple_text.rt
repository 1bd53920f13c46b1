//! The texts of geometries that hold no geometries, from their points and ids.
ghost use Rattle.std.specs.Prelude.{◌≡◌, ◌++◌, ℤ, OnOk};
ghost use Rattle.twkb_tree.specs.Tree.{IsPrecision, simple, point, line, polygon, multi_point, multi_line};
ghost use Rattle.twkb_tree.specs.Tree.{multi_polygon};
ghost use Rattle.twkb_geojson.specs.Value.{geojson};
ghost use Rattle.twkb_geojson.specs.Text.{Grows};

use crate::lists::{put_areas, put_lists};
use crate::members::put_start;
use crate::piece::flush;
use crate::positions::{push_position, put_positions};
use std::alloc::AllocError;
use twkb_num::Piece;
use twkb_points::Pt;
use twkb_tree::{Ids, Kind, Lines, Pts};

// Appends the text of an empty point. Takes memory; after an `Err` a prefix of it may be appended.
pub(crate) fn put_empty_point(text: &mut Vec<u8>) -> Result<(), AllocError>
    ensures appended { OnOk result ((p : ℤ) → text.new.items ≡ text.old.items ++ geojson (simple p (point None))) }
    ensures grown { Grows text.old.items text.new.items }
{
    put_start(Kind::Point, &None, text)?;
    text.extend_from_slice(b"[]}")?;
    Ok(())
}

// Appends the text of a point. Takes memory; after an `Err` a prefix of it may be appended.
pub(crate) fn put_point(precision: i8, place: Pt, text: &mut Vec<u8>) -> Result<(), AllocError>
    requires known { IsPrecision precision }
    ensures appended { OnOk result (text.new.items
        ≡ text.old.items ++ geojson (simple precision (point (Some place)))) }
    ensures grown { Grows text.old.items text.new.items }
{
    put_start(Kind::Point, &None, text)?;
    let mut piece = Piece::<256>::new();
    push_position(precision, place, &mut piece);
    piece.push(b'}');
    flush(&mut piece, text)?;
    Ok(())
}

// Appends the text of a linestring. Takes memory; after an `Err` a prefix of it may be appended.
pub(crate) fn put_line(precision: i8, points: &[Pt], text: &mut Vec<u8>) -> Result<(), AllocError>
    requires known { IsPrecision precision }
    ensures appended { OnOk result (text.new.items
        ≡ text.old.items ++ geojson (simple precision (line points.now))) }
    ensures grown { Grows text.old.items text.new.items }
{
    put_start(Kind::Linestring, &None, text)?;
    put_positions(precision, points, text)?;
    text.push(b'}')?;
    Ok(())
}

// Appends the text of a polygon with these rings. Takes memory; after an `Err` a prefix of it may be
// appended.
pub(crate) fn put_polygon(
    precision: i8,
    rings: &[Pts],
    text: &mut Vec<u8>,
) -> Result<(), AllocError>
    requires known { IsPrecision precision }
    ensures appended { OnOk result (text.new.items
        ≡ text.old.items ++ geojson (simple precision (polygon rings.now))) }
    ensures grown { Grows text.old.items text.new.items }
{
    put_start(Kind::Polygon, &None, text)?;
    put_lists(precision, rings, text)?;
    text.push(b'}')?;
    Ok(())
}

// Appends the text of a multipoint with these points and ids. Takes memory; after an `Err` a prefix
// of it may be appended.
pub(crate) fn put_multi_point(
    precision: i8,
    points: &[Pt],
    ids: &Ids,
    text: &mut Vec<u8>,
) -> Result<(), AllocError>
    requires known { IsPrecision precision }
    ensures appended { OnOk result (text.new.items
        ≡ text.old.items ++ geojson (simple precision (multi_point ids.now points.now))) }
    ensures grown { Grows text.old.items text.new.items }
{
    put_start(Kind::MultiPoint, ids, text)?;
    put_positions(precision, points, text)?;
    text.push(b'}')?;
    Ok(())
}

// Appends the text of a multilinestring with these lines and ids. Takes memory; after an `Err` a
// prefix of it may be appended.
pub(crate) fn put_multi_line(
    precision: i8,
    lines: &[Pts],
    ids: &Ids,
    text: &mut Vec<u8>,
) -> Result<(), AllocError>
    requires known { IsPrecision precision }
    ensures appended { OnOk result (text.new.items
        ≡ text.old.items ++ geojson (simple precision (multi_line ids.now lines.now))) }
    ensures grown { Grows text.old.items text.new.items }
{
    put_start(Kind::MultiLinestring, ids, text)?;
    put_lists(precision, lines, text)?;
    text.push(b'}')?;
    Ok(())
}

// Appends the text of a multipolygon with these polygons, each a list of its rings, and ids. Takes
// memory; after an `Err` a prefix of it may be appended.
pub(crate) fn put_multi_polygon(
    precision: i8,
    areas: &[Lines],
    ids: &Ids,
    text: &mut Vec<u8>,
) -> Result<(), AllocError>
    requires known { IsPrecision precision }
    ensures appended { OnOk result (text.new.items
        ≡ text.old.items ++ geojson (simple precision (multi_polygon ids.now areas.now))) }
    ensures grown { Grows text.old.items text.new.items }
{
    put_start(Kind::MultiPolygon, ids, text)?;
    put_areas(precision, areas, text)?;
    text.push(b'}')?;
    Ok(())
}
