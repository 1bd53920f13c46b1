//! Geometries and their flat forms: facts, rows that a form admits, and blobs in both styles.
use super::text::{put, put_counts, put_hex, put_named, put_shown, table_of};
use std::alloc::Global;
use twkb_blob::{Session, Style, encode_styled, measure};
use twkb_geom::{Flat, Geometry, Kind, Limits, NodeId, PointId, Row, Work};
use twkb_io::{Bytes, Count, Tap};
use twkb_points::Pt;
use twkb_polyline::decode;
use twkb_table::{TableReader, parse_kind};

// ---- the flat forms of tables, and their geometries

// The form of the first geometry of these rows, within the largest limits; without rows if there
// is none.
fn form_of(alloc: Global, rows: &[u8]) -> Flat {
    let mut flat = Flat::new(alloc);
    let table = table_of(alloc, rows);
    let mut tap = Tap::new(table.as_slice());
    let mut reader = TableReader::new(alloc, &mut tap, Limits::largest());
    let _is_read = reader.next_flat(&mut flat).is_ok();
    flat
}

// Prints the nodes, and counts them as read.
fn put_nodes(alloc: Global, flat: &Flat, work: &mut Work, text: &mut Vec<u8>) {
    for id in 0..flat.node_count() {
        put_named(alloc, text, b"\n  ", &flat.node(NodeId(id), work));
    }
}

// Prints the points, and counts them as read.
fn put_points(alloc: Global, flat: &Flat, work: &mut Work, text: &mut Vec<u8>) {
    for id in 0..flat.point_count() {
        put_named(alloc, text, b"\n  ", &flat.point(PointId(id), work));
    }
}

/// Prints the nodes and points of these rows, and how many of each were read.
pub fn put_form(alloc: Global, rows: &[u8], text: &mut Vec<u8>) {
    let flat = form_of(alloc, rows);
    let mut work = Work::new();
    put_nodes(alloc, &flat, &mut work, text);
    put_points(alloc, &flat, &mut work, text);
    put_counts(
        alloc,
        text,
        b"\n  reads",
        &[work.node_reads, work.point_reads],
    );
}

// Prints the numbers of rows and points, whether the geometry is within limits and has one
// precision, and its box, if it has one.
fn put_geometry(alloc: Global, limits: Limits, geometry: &Geometry, text: &mut Vec<u8>) {
    put_counts(alloc, text, b"", &[geometry.nodes(), geometry.points()]);
    put_shown(alloc, text, b" ", &geometry.within(&limits));
    put_shown(alloc, text, b" ", &geometry.uniform());
    if let Some(bounds) = geometry.bounds() {
        put_named(alloc, text, b" ", &bounds.items());
    }
}

// Prints the same of the geometry built from a form, if it has rows.
fn put_built(alloc: Global, limits: Limits, flat: &Flat, text: &mut Vec<u8>) {
    if flat.is_empty() {
        return;
    }
    match flat.to_geometry(alloc) {
        Ok(geometry) => {
            put_geometry(alloc, limits, &geometry, text);
            drop(geometry);
        }
        Err(_) => {}
    }
}

/// Prints these facts about the geometry of these rows, if there is one. It is read within the
/// largest limits.
pub fn put_tree(alloc: Global, limits: Limits, rows: &[u8], text: &mut Vec<u8>) {
    put(text, b"\n  geometry");
    put_built(alloc, limits, &form_of(alloc, rows), text);
}

// ---- rows that a form admits, or does not

// The part of a row before the first comma, and the rest after it.
fn cut_field(row: &str) -> (&str, &str) {
    row.split_once(',').unwrap_or((row, ""))
}

// The row that four fields give, whatever a table may have in them; a point for an unknown kind.
fn row_of(fields: &str) -> Row {
    let (depth, rest) = cut_field(fields);
    let (kind, rest) = cut_field(rest);
    let (id, rest) = cut_field(rest);
    let (precision, _) = cut_field(rest);
    Row {
        depth: depth.parse::<u32>().unwrap_or(0),
        kind: parse_kind(kind.as_bytes()).unwrap_or(Kind::Point),
        id: id.parse::<i64>().ok(),
        precision: precision.parse::<i8>().ok(),
    }
}

// The points of a row's last field.
fn points_of(alloc: Global, fields: &str) -> Vec<Pt> {
    let (_, polyline) = fields.rsplit_once(',').unwrap_or(("", ""));
    decode(alloc, polyline.as_bytes(), 99).unwrap_or(Vec::new(alloc))
}

// Whether a form admits a row with these points, which is then pushed.
fn is_pushed(flat: &mut Flat, row: Row, points: &[Pt]) -> bool {
    if !flat.admits(&row, points) {
        return false;
    }
    flat.push(row, points).is_ok()
}

/// Prints whether a form, which is empty at first, admits each of these rows; one that is
/// admitted is pushed.
pub fn put_admitted(alloc: Global, rows: &str, text: &mut Vec<u8>) {
    let mut flat = Flat::new(alloc);
    put(text, b"\n  admits");
    for fields in rows.split('/') {
        if !fields.is_empty() {
            let points = points_of(alloc, fields);
            put_shown(
                alloc,
                text,
                b" ",
                &is_pushed(&mut flat, row_of(fields), &points),
            );
        }
    }
}

// ---- the blobs of a geometry

// Prints the bytes of a geometry's blob in a style, after how many bytes a sink counts.
fn put_styled(alloc: Global, geometry: &Geometry, style: Style, text: &mut Vec<u8>) {
    if geometry.within(&Limits::largest()) {
        let mut count = Count::new();
        let mut bytes = Bytes::new(alloc);
        let is_counted = encode_styled(alloc, geometry, style, &mut count).is_ok();
        let is_put = encode_styled(alloc, geometry, style, &mut bytes).is_ok();
        if is_counted & is_put {
            put_shown(alloc, text, b" ", &count.total());
        }
        put_hex(alloc, text, &bytes.into_vec());
    }
}

// Prints the length of a geometry's full blob as it is measured, and its blobs in both styles.
fn put_both(alloc: Global, geometry: &Geometry, text: &mut Vec<u8>) {
    if geometry.within(&Limits::largest()) {
        put_shown(alloc, text, b"\n  measured ", &measure(geometry));
    }
    put(text, b"\n  full");
    put_styled(alloc, geometry, Style::Full, text);
    put(text, b"\n  plain");
    put_styled(alloc, geometry, Style::Plain, text);
}

/// Prints the blobs of the first geometry of a stream, if it has one: in both styles, with their
/// lengths.
pub fn put_encoded(alloc: Global, bytes: &[u8], text: &mut Vec<u8>) {
    let mut session = Session::new(alloc, Limits::largest());
    match session.feed(bytes) {
        Ok((_, Some(geometry))) => {
            put_both(alloc, &geometry, text);
            drop(geometry);
        }
        _ => {}
    }
}
