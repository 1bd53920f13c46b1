//! Geometries, rows and limits: shapes that are made or returned, lists, what a row's place allows,
//! limits, and the words of kinds. Worked tables, and rows after others, are rows of the program
//! `vector_runner`.
use crate::fixtures::{POINT_AND_LINE, THREE_PRECISIONS, form, geometry};
use std::alloc::Global;
use twkb_polyline::decode;
use twkb_tree::row_rules::{
    count_fits, has_needed_precision, has_place, has_points, has_same_ids, id_allowed, is_geometry,
    may_have, nest_kept, precision_allowed,
};
use twkb_tree::{
    GeomFault, Geometry, IdList, Kind, Limits, Members, OpenRow, Pts, RowPlace, Shape, id_at,
    own_parts,
};

// ---- geometries made from lists, and refused shapes that are returned

// A multipoint of two points, with these ids.
fn multipoint(alloc: Global, ids: &[i64]) -> Option<Shape> {
    let points = decode(alloc, b"AACC", 2).ok()?;
    let ids = Vec::from_slice(alloc, ids).ok()?;
    Some(Shape::MultiPoint(Pts::from_vec(points), Some(IdList::from_vec(ids))))
}

// Whether it is such a multipoint, with no points in its own row.
fn is_multipoint(shape: &Shape, numbers: &[i64]) -> bool {
    let (kind, own) = own_parts(shape);
    match shape {
        Shape::MultiPoint(points, ids) => {
            let has_parts = (points.as_slice().len() == 2) & (kind == Kind::MultiPoint);
            has_parts & own.is_empty() & (id_at(ids, 0) == numbers.first().copied())
        }
        _ => false,
    }
}

// Whether a geometry is made of the shape, or the shape is returned for this reason.
fn is_answered(precision: i8, shape: Shape, ids: &[i64], reason: Option<GeomFault>) -> bool {
    match Geometry::try_new(precision, shape) {
        Ok(made) => {
            let is_made = reason.is_none() & (made.precision() == precision);
            let is_shown = is_multipoint(made.shape(), ids);
            drop(made);
            is_made & is_shown
        }
        Err((shape, fault)) => {
            let is_back = is_multipoint(&shape, ids);
            drop(shape);
            is_back & (reason == Some(fault))
        }
    }
}

// Whether a geometry is made of two points with these ids, or the shape is returned for this reason.
fn answers(alloc: Global, precision: i8, ids: &[i64], reason: Option<GeomFault>) -> bool {
    match multipoint(alloc, ids) {
        Some(shape) => is_answered(precision, shape, ids, reason),
        None => false,
    }
}

#[test]
fn shapes_of_a_bad_precision_or_bad_ids_come_back(rt: HostRuntime) {
    let alloc = rt.alloc();
    let (bad_precision, bad_ids) = (Some(GeomFault::BadPrecision), Some(GeomFault::BadIds));
    let are_made = answers(alloc, -8, &[7, -1], None) & answers(alloc, 7, &[-1, 7], None);
    let are_bad = answers(alloc, 8, &[1, 2], bad_precision)
        & answers(alloc, -9, &[1], bad_precision);
    let have_bad_ids = answers(alloc, 0, &[1], bad_ids) & answers(alloc, 0, &[1, 2, 3], bad_ids);
    assert!(rt; are_made & are_bad & have_bad_ids);
}

// Whether a list of this member shows it and gives it back.
fn keep_items(alloc: Global, member: Geometry) -> bool {
    let mut items = Vec::new(alloc);
    let is_pushed = items.push(member).is_ok();
    let members = Members::from_vec(items);
    let is_shown = members.as_slice().len() == 1;
    is_pushed & is_shown & (members.into_vec().len() == 1)
}

// Whether such a list shows and gives back a geometry that is read.
fn keep_a_geometry(alloc: Global) -> bool {
    match geometry(alloc, THREE_PRECISIONS) {
        Some(member) => keep_items(alloc, member),
        None => false,
    }
}

// Whether a list keeps the least and the greatest number, in this order.
fn keep_both_ends(alloc: Global) -> bool {
    let ends = [i64::MIN, i64::MAX];
    match Vec::from_slice(alloc, &ends) {
        Ok(numbers) => IdList::from_vec(numbers).into_vec().as_slice() == ends.as_slice(),
        Err(_) => false,
    }
}

#[test]
fn lists_keep_their_items(rt: HostRuntime) {
    assert!(rt; keep_a_geometry(rt.alloc()) & keep_both_ends(rt.alloc()));
}

// ---- what a row's place allows, each rule once for each answer; limits; words of kinds

// An open row of this kind, and whether its first child has an id, if it has a child.
fn under(kind: Kind, child_ids: Option<bool>) -> Option<OpenRow> {
    Some(OpenRow { kind, child_ids })
}

#[test]
fn parents_and_children(rt: HostRuntime) {
    let collection = under(Kind::Collection, None);
    let multipoint = under(Kind::MultiPoint, None);
    let may_be = may_have(Kind::Polygon, Kind::Ring) & !may_have(Kind::Point, Kind::Point);
    let may_stand = has_place(None, Kind::Collection) & !has_place(collection, Kind::Ring);
    let are_whole = is_geometry(None) & is_geometry(collection) & !is_geometry(multipoint);
    let limits = Limits::largest();
    let are_nested = nest_kept(&limits, collection, 32) & !nest_kept(&limits, collection, 33);
    assert!(rt; may_be & may_stand & are_whole & are_nested);
}

#[test]
fn ids_of_rows(rt: HostRuntime) {
    let multipoint = under(Kind::MultiPoint, Some(true));
    let are_allowed = id_allowed(multipoint, Kind::Point, true)
        & !id_allowed(None, Kind::Point, true);
    let are_same = has_same_ids(multipoint, true) & !has_same_ids(multipoint, false);
    let first = OpenRow::default().with_child(true);
    let is_kept = first.with_child(false) == first;
    assert!(rt; are_allowed & are_same & is_kept & (first.child_ids == Some(true)));
}

#[test]
fn precisions_of_rows(rt: HostRuntime) {
    let multipoint = under(Kind::MultiPoint, None);
    let are_needed = !has_needed_precision(None, false) & has_needed_precision(multipoint, false);
    assert!(rt; are_needed & precision_allowed(None, true) & !precision_allowed(multipoint, true));
}

#[test]
fn points_of_rows(rt: HostRuntime) {
    let have_points = has_points(Kind::Ring) & !has_points(Kind::Polygon);
    let fit = count_fits(Kind::Point, true, 0) & !count_fits(Kind::Point, false, 0);
    assert!(rt; have_points & fit);
}

#[test]
fn a_row_stands_under_the_last_row_above_its_depth(rt: HostRuntime) {
    let child_ids = None;
    let kind = Kind::MultiPoint;
    let rows = [OpenRow::default(), OpenRow { kind, child_ids }];
    let below = RowPlace {
        depth: 2,
        parent: Some(rows[1]),
        nodes: 5,
        points: 3,
    };
    let is_below = RowPlace::at(2, &rows, 5, 3) == Some(below);
    assert!(rt; is_below & RowPlace::at(3, &rows, 5, 3).is_none());
}

// The rows of the form are a collection, a point with an id, and a linestring with an id.
#[test]
fn places_after_the_rows_of_a_form(rt: HostRuntime) {
    let flat = form(rt.alloc(), POINT_AND_LINE);
    let member = RowPlace {
        depth: 1,
        parent: under(Kind::Collection, Some(true)),
        nodes: 3,
        points: 1,
    };
    let below = RowPlace {
        depth: 2,
        parent: under(Kind::Linestring, None),
        nodes: 3,
        points: 1,
    };
    let are_members = (flat.place(1) == Some(member)) & (flat.place(2) == Some(below));
    assert!(rt;
        are_members & (flat.place(0) == RowPlace::at(0, &[], 0, 0)) & flat.place(3).is_none()
    );
}

// Whether limits have these numbers.
fn reads(limits: Limits, nest: u32, nodes: u32, points: u32) -> bool {
    (limits.nest() == nest) & (limits.nodes() == nodes) & (limits.points() == points)
}

#[test]
fn limits_and_their_caps(rt: HostRuntime) {
    let made = Limits::try_new(8, 2, 1).unwrap_or(Limits::standard());
    let are_caps = reads(Limits::largest(), 32, 1 << 20, 1 << 24)
        & Limits::try_new(33, 1, 0).is_none()
        & Limits::try_new(0, 0, 0).is_none();
    assert!(rt; are_caps & reads(made, 8, 2, 1));
}

// The words of the table, by docs/FORMATS.md.
const WORDS: [(Kind, &str); 8] = [
    (Kind::Point, "point"),
    (Kind::Linestring, "linestring"),
    (Kind::Polygon, "polygon"),
    (Kind::Ring, "ring"),
    (Kind::MultiPoint, "multipoint"),
    (Kind::MultiLinestring, "multilinestring"),
    (Kind::MultiPolygon, "multipolygon"),
    (Kind::Collection, "collection"),
];

// Whether each kind has its word.
fn have_words() -> bool {
    let mut are_words = true;
    for (kind, word) in WORDS {
        are_words &= kind.name() == word;
    }
    are_words
}

#[test]
fn a_kind_has_the_word_of_the_table(rt: HostRuntime) {
    assert!(rt; have_words());
}
