//! Each way to read a stream: its geometries as full blobs, or their spans, and the fault after them.
use super::text::{put, put_hex, put_named, put_stop};
use std::alloc::Global;
use std::io::Read;
use twkb_blob::{BlobFault, Reader, Session, Span, Style, encode, measure_flat, write_flat};
use twkb_geom::{Flat, Geometry, Limits, Work};
use twkb_io::{Bytes, Input, Tap};

/// How a stream is read.
#[derive(Clone, Copy)]
pub enum Way {
    Trees,
    Located,
    Rows,
}

// Appends the full blob of a geometry.
fn put_blob(alloc: Global, geometry: &Geometry, blobs: &mut Vec<u8>) {
    if geometry.within(&Limits::largest()) {
        let mut sink = Bytes::new(alloc);
        let _is_put = encode(alloc, geometry, &mut sink).is_ok();
        put(blobs, &sink.into_vec());
    }
}

// Appends the full blob of a geometry given by its rows.
fn put_flat_blob(alloc: Global, flat: &Flat, blobs: &mut Vec<u8>) {
    let mut work = Work::new();
    let mut sink = Bytes::new(alloc);
    if let Ok(sizes) = measure_flat(alloc, flat, Style::Full, &mut work) {
        let _is_put = write_flat(flat, Style::Full, &sizes, &mut sink, &mut work).is_ok();
    }
    put(blobs, &sink.into_vec());
}

// Appends a line of text for each span.
fn put_spans(alloc: Global, spans: &[Span], lines: &mut Vec<u8>) {
    for span in spans {
        put_named(alloc, lines, b"\n  ", span);
    }
}

// Reads a tree, appends its full blob, and returns whether there was one.
fn read_tree<R: Read>(
    alloc: Global,
    reader: &mut Reader<'_, R>,
    found: &mut Vec<u8>,
) -> Result<bool, BlobFault> {
    match reader.next(alloc) {
        Ok(Some(geometry)) => {
            put_blob(alloc, &geometry, found);
            drop(geometry);
            Ok(true)
        }
        Ok(None) => Ok(false),
        Err(fault) => Err(fault),
    }
}

// Reads a tree with its spans, appends a line of text for each span, drops the tree, and returns
// whether there was one.
fn read_located<R: Read>(
    alloc: Global,
    reader: &mut Reader<'_, R>,
    found: &mut Vec<u8>,
) -> Result<bool, BlobFault> {
    match reader.next_located(alloc) {
        Ok(Some(located)) => {
            put_spans(alloc, located.spans.as_slice(), found);
            drop(located);
            Ok(true)
        }
        Ok(None) => Ok(false),
        Err(fault) => Err(fault),
    }
}

// Reads rows, appends the full blob, and returns whether there were any.
fn read_rows<R: Read>(
    alloc: Global,
    reader: &mut Reader<'_, R>,
    flat: &mut Flat,
    found: &mut Vec<u8>,
) -> Result<bool, BlobFault> {
    let read = reader.next_flat(alloc, flat);
    put_flat_blob(alloc, flat, found);
    read
}

/// Reads the next geometry in this way, appends the result, and returns whether there was one.
pub fn read_next<R: Read>(
    alloc: Global,
    way: Way,
    reader: &mut Reader<'_, R>,
    flat: &mut Flat,
    found: &mut Vec<u8>,
) -> Result<bool, BlobFault> {
    match way {
        Way::Trees => read_tree(alloc, reader, found),
        Way::Located => read_located(alloc, reader, found),
        Way::Rows => read_rows(alloc, reader, flat, found),
    }
}

// Reads a device to its end or to the fault.
fn read_device<R: Read>(
    alloc: Global,
    way: Way,
    limits: Limits,
    tap: &mut Tap<R>,
    most: usize,
    found: &mut Vec<u8>,
) -> Option<BlobFault> {
    let mut reader = Reader::new(Input::new(tap), limits);
    let mut flat = Flat::new(alloc);
    let mut answer = Ok(true);
    for _ in 0..most {
        if answer == Ok(true) {
            answer = read_next(alloc, way, &mut reader, &mut flat, found);
        }
    }
    answer.err()
}

// Reads bytes to their end or to the fault.
fn read_by(
    alloc: Global,
    way: Way,
    limits: Limits,
    bytes: &[u8],
    found: &mut Vec<u8>,
) -> Option<BlobFault> {
    let most = bytes.len().saturating_add(1);
    read_device(alloc, way, limits, &mut Tap::new(bytes), most, found)
}

/// Feeds a piece, appends the full blob of the tree that ends in it, and returns the number of
/// bytes used.
pub fn feed_tree(
    alloc: Global,
    session: &mut Session,
    piece: &[u8],
    found: &mut Vec<u8>,
) -> Result<usize, BlobFault> {
    match session.feed(piece) {
        Ok((used, Some(geometry))) => {
            put_blob(alloc, &geometry, found);
            drop(geometry);
            Ok(used)
        }
        Ok((used, None)) => Ok(used),
        Err(fault) => Err(fault),
    }
}

// Feeds a piece, appends the full blob of the rows that end in it, and returns the number of bytes
// used.
fn feed_rows(
    alloc: Global,
    session: &mut Session,
    piece: &[u8],
    found: &mut Vec<u8>,
) -> Result<usize, BlobFault> {
    let (used, is_found) = session.feed_flat(piece)?;
    if is_found {
        put_flat_blob(alloc, session.flat(), found);
    }
    Ok(used)
}

// Feeds a piece in this way.
fn feed(
    alloc: Global,
    way: Way,
    session: &mut Session,
    piece: &[u8],
    found: &mut Vec<u8>,
) -> Result<usize, BlobFault> {
    match way {
        Way::Rows => feed_rows(alloc, session, piece, found),
        _ => feed_tree(alloc, session, piece, found),
    }
}

// Feeds pieces of this many bytes.
fn feed_all(
    alloc: Global,
    way: Way,
    session: &mut Session,
    length: usize,
    bytes: &[u8],
    found: &mut Vec<u8>,
) -> Option<BlobFault> {
    let mut rest = bytes;
    for _ in 0..bytes.len() {
        let piece = &rest[..length.min(rest.len())];
        match feed(alloc, way, session, piece, found) {
            Ok(used) => rest = &rest[used.min(rest.len())..],
            Err(fault) => return Some(fault),
        }
    }
    session.finish().err()
}

// Feeds a new session pieces of this many bytes.
fn feed_by(
    alloc: Global,
    way: Way,
    limits: Limits,
    length: usize,
    bytes: &[u8],
    found: &mut Vec<u8>,
) -> Option<BlobFault> {
    let mut session = Session::new(alloc, limits);
    feed_all(alloc, way, &mut session, length, bytes, found)
}

// Feeds a piece, and what is unused of it again, until all of it is used.
fn feed_again(
    alloc: Global,
    way: Way,
    session: &mut Session,
    piece: &[u8],
    found: &mut Vec<u8>,
) -> Option<BlobFault> {
    let mut rest = piece;
    for _ in 0..piece.len() {
        if !rest.is_empty() {
            match feed(alloc, way, session, rest, found) {
                Ok(used) => rest = &rest[used.min(rest.len())..],
                Err(fault) => return Some(fault),
            }
        }
    }
    None
}

// Feeds a new session the bytes before a place, and then those after it.
fn feed_halves(
    alloc: Global,
    way: Way,
    limits: Limits,
    halves: (&[u8], &[u8]),
    found: &mut Vec<u8>,
) -> Option<BlobFault> {
    let mut session = Session::new(alloc, limits);
    let (first, second) = halves;
    if let Some(fault) = feed_again(alloc, way, &mut session, first, found) {
        return Some(fault);
    }
    if let Some(fault) = feed_again(alloc, way, &mut session, second, found) {
        return Some(fault);
    }
    session.finish().err()
}

// Whether a stream that is cut in two at this place gives these blobs and this fault, by trees and
// by rows.
fn halves_give(
    alloc: Global,
    limits: Limits,
    halves: (&[u8], &[u8]),
    blobs: &[u8],
    fault: Option<BlobFault>,
) -> bool {
    let mut trees = Vec::new(alloc);
    let mut rows = Vec::new(alloc);
    let are_trees = feed_halves(alloc, Way::Trees, limits, halves, &mut trees) == fault;
    let are_rows = feed_halves(alloc, Way::Rows, limits, halves, &mut rows) == fault;
    are_trees & are_rows & (trees.as_slice() == blobs) & (rows.as_slice() == blobs)
}

// Whether pieces of this many bytes give these blobs and this fault, by trees and by rows.
fn pieces_give(
    alloc: Global,
    limits: Limits,
    length: usize,
    bytes: &[u8],
    blobs: &[u8],
    fault: Option<BlobFault>,
) -> bool {
    let mut trees = Vec::new(alloc);
    let mut rows = Vec::new(alloc);
    let are_trees = feed_by(alloc, Way::Trees, limits, length, bytes, &mut trees) == fault;
    let are_rows = feed_by(alloc, Way::Rows, limits, length, bytes, &mut rows) == fault;
    are_trees & are_rows & (trees.as_slice() == blobs) & (rows.as_slice() == blobs)
}

// Whether rows, pieces of each length, and two pieces, cut at each place, give these blobs and this
// fault.
fn each_way_gives(
    alloc: Global,
    limits: Limits,
    bytes: &[u8],
    blobs: &[u8],
    fault: Option<BlobFault>,
) -> bool {
    let mut rows = Vec::new(alloc);
    let mut is_given = read_by(alloc, Way::Rows, limits, bytes, &mut rows) == fault;
    is_given &= rows.as_slice() == blobs;
    for length in 1..bytes.len().saturating_add(1) {
        is_given &= pieces_give(alloc, limits, length, bytes, blobs, fault);
        let cut = length.min(bytes.len());
        let halves = (&bytes[..cut], &bytes[cut..]);
        is_given &= halves_give(alloc, limits, halves, blobs, fault);
    }
    is_given
}

/// Prints the full blobs of a stream's geometries and the fault after them, and whether some way
/// to read it differs.
pub fn put_read(alloc: Global, limits: Limits, bytes: &[u8], text: &mut Vec<u8>) {
    let mut blobs = Vec::new(alloc);
    let fault = read_by(alloc, Way::Trees, limits, bytes, &mut blobs);
    put(text, b"\n  read");
    put_hex(alloc, text, &blobs);
    put_stop(alloc, text, fault);
    if !each_way_gives(alloc, limits, bytes, &blobs, fault) {
        put(text, b"\n  another way differs");
    }
}

/// Prints the spans of a stream's geometries, as they come with the geometries, and the fault
/// after them.
pub fn put_located(alloc: Global, limits: Limits, bytes: &[u8], text: &mut Vec<u8>) {
    put(text, b"\n  located");
    let fault = read_by(alloc, Way::Located, limits, bytes, text);
    put_stop(alloc, text, fault);
}
