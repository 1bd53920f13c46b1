//! Programs that read: rows of blobs, trees of blobs, rows of tables.

use crate::digest::Digest;
use std::alloc::{AllocError, Global};
use std::fmt::Display;
use std::io::Read;
use twkb_blob::Reader;
use twkb_geom::{
    Areas, Flat, Geometry, Ids, Kind, Limits, Lines, Members, Node, NodeId, PointId, Shape, Work,
};
use twkb_io::{Input, Tap};
use twkb_points::Pt;
use twkb_table::TableReader;

// Takes a kind, by its place among the kinds.
fn fold_kind(kind: Kind, digest: &mut Digest) {
    digest.fold(match kind {
        Kind::Point => 1,
        Kind::Linestring => 2,
        Kind::Polygon => 3,
        Kind::Ring => 4,
        Kind::MultiPoint => 5,
        Kind::MultiLinestring => 6,
        Kind::MultiPolygon => 7,
        Kind::Collection => 8,
    });
}

// Takes a number that may be missing.
fn fold_optional(number: Option<i64>, digest: &mut Digest) {
    match number {
        Some(number) => {
            digest.fold(1);
            digest.fold_signed(number);
        }
        None => digest.fold(0),
    }
}

// Takes both coordinates.
fn fold_point(point: Pt, digest: &mut Digest) {
    digest.fold_signed(point.x());
    digest.fold_signed(point.y());
}

// Takes a list of points and its length.
fn fold_points(points: &[Pt], digest: &mut Digest) {
    digest.fold(points.len() as u64);
    for point in points {
        fold_point(*point, digest);
    }
}

// Takes a row and its places: the node after its subtree, its first point, and the number of its points.
fn fold_node(node: Node, digest: &mut Digest) {
    digest.fold(u64::from(node.row.depth));
    fold_kind(node.row.kind, digest);
    fold_optional(node.row.id, digest);
    match node.row.precision {
        Some(precision) => fold_optional(Some(i64::from(precision)), digest),
        None => fold_optional(None, digest),
    }
    digest.fold(u64::from(node.next.0));
    digest.fold(u64::from(node.first.0));
    digest.fold(u64::from(node.points));
}

/// Takes every field of every row of a geometry, and all points.
pub(crate) fn fold_rows(flat: &Flat, digest: &mut Digest) {
    let mut work = Work::new();
    digest.fold(u64::from(flat.node_count()));
    for index in 0..flat.node_count() {
        fold_node(flat.node(NodeId(index), &mut work), digest);
    }
    digest.fold(u64::from(flat.point_count()));
    for index in 0..flat.point_count() {
        fold_point(flat.point(PointId(index), &mut work), digest);
    }
}

// Takes the ids of members.
fn fold_ids(ids: &Ids, digest: &mut Digest) {
    match ids {
        Some(ids) => {
            digest.fold(ids.as_slice().len() as u64);
            for id in ids.as_slice() {
                digest.fold_signed(*id);
            }
        }
        None => digest.fold(0),
    }
}

// Takes lists of points and their number.
fn fold_lines(lines: &Lines, digest: &mut Digest) {
    digest.fold(lines.as_slice().len() as u64);
    for line in lines.as_slice() {
        fold_points(line.as_slice(), digest);
    }
}

// Takes the polygons of a multipolygon and their number.
fn fold_areas(areas: &Areas, digest: &mut Digest) {
    digest.fold(areas.as_slice().len() as u64);
    for rings in areas.as_slice() {
        fold_lines(rings, digest);
    }
}

// Takes the members of a collection and their number.
#[cycle(trees)]
#[tactic(auto, using(twkb_tree::specs::Size::member_smaller))]
fn fold_members(members: &Members, digest: &mut Digest) {
    digest.fold(members.as_slice().len() as u64);
    for member in members.as_slice() {
        fold_shape(member, digest);
    }
}

// Takes the precision of a geometry and all of its shape.
#[cycle(trees)]
fn fold_shape(geometry: &Geometry, digest: &mut Digest) {
    digest.fold_signed(i64::from(geometry.precision()));
    match geometry.shape() {
        Shape::Point(Some(point)) => {
            digest.fold(1);
            fold_point(*point, digest);
        }
        Shape::Point(None) => digest.fold(0),
        Shape::Line(points) => {
            digest.fold(2);
            fold_points(points.as_slice(), digest);
        }
        Shape::Polygon(rings) => {
            digest.fold(3);
            fold_lines(rings, digest);
        }
        Shape::MultiPoint(points, ids) => {
            digest.fold(4);
            fold_ids(ids, digest);
            fold_points(points.as_slice(), digest);
        }
        Shape::MultiLine(lines, ids) => {
            digest.fold(5);
            fold_ids(ids, digest);
            fold_lines(lines, digest);
        }
        Shape::MultiPolygon(areas, ids) => {
            digest.fold(6);
            fold_ids(ids, digest);
            fold_areas(areas, digest);
        }
        Shape::Collection(members, ids) => {
            digest.fold(7);
            fold_ids(ids, digest);
            fold_members(members, digest);
        }
    }
}

// Takes what a tree is: its numbers of rows and points, its box, and every field of every geometry in it.
fn fold_tree(geometry: &Geometry, digest: &mut Digest) {
    digest.fold(geometry.nodes());
    digest.fold(geometry.points());
    if let Some(bounds) = geometry.bounds() {
        for number in bounds.items() {
            digest.fold_signed(number);
        }
    }
    fold_shape(geometry, digest);
}

// Takes the text of a fault that ended a reading, which has its reason and place.
fn fold_fault<F: Display>(alloc: Global, fault: &F, digest: &mut Digest) -> Result<(), AllocError> {
    let text = format!(in alloc; "{fault}")?;
    digest.fold_bytes(text.as_bytes());
    Ok(())
}

/// Reads the rows of all blobs.
pub(crate) fn read_rows<R: Read>(
    alloc: Global,
    tap: &mut Tap<R>,
    digest: &mut Digest,
) -> Result<(), AllocError> {
    let mut reader = Reader::new(Input::new(tap), Limits::standard());
    let mut flat = Flat::new(alloc);
    for _ in 0..u64::MAX {
        match reader.next_flat(alloc, &mut flat) {
            Ok(true) => fold_rows(&flat, digest),
            Ok(false) => return Ok(()),
            Err(fault) => return fold_fault(alloc, &fault, digest),
        }
    }
    Ok(())
}

/// Reads the trees of all blobs.
pub(crate) fn read_trees<R: Read>(
    alloc: Global,
    tap: &mut Tap<R>,
    digest: &mut Digest,
) -> Result<(), AllocError> {
    let mut reader = Reader::new(Input::new(tap), Limits::standard());
    for _ in 0..u64::MAX {
        match reader.next(alloc) {
            Ok(Some(geometry)) => {
                fold_tree(&geometry, digest);
                drop(geometry);
            }
            Ok(None) => return Ok(()),
            Err(fault) => return fold_fault(alloc, &fault, digest),
        }
    }
    Ok(())
}

/// Reads the rows of a table.
pub(crate) fn read_table<R: Read>(
    alloc: Global,
    tap: &mut Tap<R>,
    digest: &mut Digest,
) -> Result<(), AllocError> {
    let mut reader = TableReader::new(alloc, tap, Limits::standard());
    let mut flat = Flat::new(alloc);
    for _ in 0..u64::MAX {
        match reader.next_flat(&mut flat) {
            Ok(true) => fold_rows(&flat, digest),
            Ok(false) => return Ok(()),
            Err(fault) => return fold_fault(alloc, &fault, digest),
        }
    }
    Ok(())
}
