//! The values of a line: numbers, fields of records, points and polylines.
use super::text::{bytes_of, count_of, cut_word, number_of, put, put_hex, put_named, put_shown};
use std::alloc::Global;
use twkb_num::{Five, Groups, Leb128, NumBuf, Partial, Step, unzigzag, varint_len, zigzag};
use twkb_points::{Bounds, Cursor, Pt};
use twkb_polyline::{decode, encode};
use twkb_table::{
    parse_depth, parse_id, parse_kind, parse_optional_id, parse_optional_precision, parse_precision,
};

// ---- numbers and their spellings in both alphabets

// Prints the answer of a reader to a unit: a dot if the spelling goes on.
fn put_step(alloc: Global, step: Step, text: &mut Vec<u8>) {
    match step {
        Step::More => put(text, b"."),
        Step::BadUnit => put(text, b" bad unit"),
        Step::TooLong => put(text, b" too long"),
        Step::Done { value, shortest } => {
            if !shortest {
                put(text, b" padded");
            }
            put_shown(alloc, text, b" ", &value);
        }
    }
}

/// Prints the answers of one reader to these units, and the number of units it holds at the end.
pub fn put_units<G: Groups>(alloc: Global, units: &[u8], text: &mut Vec<u8>) {
    let mut partial = Partial::<G>::new();
    put(text, b"\n  units");
    for unit in units {
        put_step(alloc, partial.step(*unit), text);
    }
    put_shown(alloc, text, b"; ", &partial.len());
}

/// Prints a number's varint, its length, and its characters in a polyline.
pub fn put_number(alloc: Global, word: &str, text: &mut Vec<u8>) {
    let number = number_of(word);
    put_shown(alloc, text, b"\n  varint ", &varint_len(number));
    put_hex(alloc, text, NumBuf::put::<Leb128>(number).as_slice());
    put(text, b"\n  characters ");
    put(text, NumBuf::put::<Five>(number).as_slice());
}

/// Prints the zigzag form of a number, and the number with that form.
pub fn put_zigzag(alloc: Global, word: &str, text: &mut Vec<u8>) {
    let form = zigzag(word.parse::<i64>().unwrap_or(0));
    put_shown(alloc, text, b"\n  zigzag ", &form);
    put_shown(alloc, text, b" ", &unzigzag(form));
}

// ---- fields of records

/// Prints what a field spells as each of the four fields that are no polyline, two of which may
/// be empty.
pub fn put_field(alloc: Global, field: &[u8], text: &mut Vec<u8>) {
    let depth = parse_depth(field);
    let ids = (parse_id(field), parse_optional_id(field));
    let precisions = (parse_precision(field), parse_optional_precision(field));
    put_named(alloc, text, b"\n  depth ", &depth);
    put_named(alloc, text, b", id ", &ids);
    put_named(alloc, text, b", precision ", &precisions);
    put_named(alloc, text, b", kind ", &parse_kind(field));
}

// ---- cursors and boxes

// The two numbers of a line; 0 where it has none.
fn pair_of(words: &str) -> (i64, i64) {
    let (x, y) = cut_word(words);
    (x.parse::<i64>().unwrap_or(0), y.parse::<i64>().unwrap_or(0))
}

// The point at the place that a line's two numbers give, if there is one.
fn point_of(words: &str) -> Option<Pt> {
    let (x, y) = pair_of(words);
    Pt::try_new(x, y)
}

// Prints how far a cursor moves to a point, if there is one.
fn put_delta(alloc: Global, cursor: &mut Cursor, place: &str, text: &mut Vec<u8>) {
    match point_of(place) {
        Some(point) => put_named(alloc, text, b" ", &cursor.delta(point)),
        None => put(text, b" no point"),
    }
}

// Prints the point to which a cursor moves by these differences, if there is one.
fn put_sum(alloc: Global, cursor: &mut Cursor, steps: &str, text: &mut Vec<u8>) {
    let (dx, dy) = pair_of(steps);
    match cursor.add(dx, dy) {
        Some(point) => put_named(alloc, text, b" ", &point),
        None => put(text, b" no point"),
    }
}

/// Prints the answers of a new cursor to calls, each a word and two numbers: `delta` and a point,
/// or `add` and two differences.
pub fn put_cursor(alloc: Global, calls: &str, text: &mut Vec<u8>) {
    let mut cursor = Cursor::origin();
    put(text, b"\n  cursor");
    for call in calls.split('/') {
        match call.split_once(' ') {
            Some(("delta", place)) => put_delta(alloc, &mut cursor, place, text),
            Some((_, steps)) => put_sum(alloc, &mut cursor, steps, text),
            None => {}
        }
    }
}

// The bounds of points, each two numbers, if each is a point.
fn bounds_of(places: &str) -> Option<Bounds> {
    let (first, others) = places.split_once('/').unwrap_or((places, ""));
    let mut bounds = Bounds::of(point_of(first)?);
    if !others.is_empty() {
        for place in others.split('/') {
            bounds.include(point_of(place)?);
        }
    }
    Some(bounds)
}

/// Prints the box of points, each two numbers.
pub fn put_box(alloc: Global, places: &str, text: &mut Vec<u8>) {
    put(text, b"\n  box");
    if let Some(bounds) = bounds_of(places) {
        put_named(alloc, text, b" ", &bounds.items());
    }
}

// ---- polylines and their points

// Whether this is the polyline of these points.
fn is_written_so(alloc: Global, points: &[Pt], polyline: &[u8]) -> bool {
    match encode(alloc, points) {
        Ok(written) => written.as_slice() == polyline,
        Err(_) => false,
    }
}

// Prints points, and whether their polyline is a different one.
fn put_list(alloc: Global, points: &Vec<Pt>, polyline: &[u8], text: &mut Vec<u8>) {
    put_named(alloc, text, b"\n  points ", points);
    if !is_written_so(alloc, points, polyline) {
        put(text, b"; another polyline");
    }
}

/// Prints the points of a polyline, at most `most`, or where and why it is refused.
pub fn put_polyline(alloc: Global, most: u32, polyline: &[u8], text: &mut Vec<u8>) {
    match decode(alloc, polyline, most) {
        Ok(points) => put_list(alloc, &points, polyline, text),
        Err(fault) => put_shown(alloc, text, b"\n  points; ", &fault),
    }
}

/// Prints the points of the polyline that a line's words give: the most points, and the characters.
pub fn put_polyline_of_text(alloc: Global, rest: &str, text: &mut Vec<u8>) {
    let (most, polyline) = cut_word(rest);
    put_polyline(alloc, count_of(most), polyline.as_bytes(), text);
}

/// Prints the points of the polyline that a line's words give: the most points, and the digits of
/// its bytes.
pub fn put_polyline_of_bytes(alloc: Global, rest: &str, text: &mut Vec<u8>) {
    let (most, digits) = cut_word(rest);
    put_polyline(alloc, count_of(most), &bytes_of(alloc, digits), text);
}
