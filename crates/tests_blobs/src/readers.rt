//! Readers and sessions of blobs over devices that fail, and in want of memory, for each way to
//! read. The vectors of blobs are those of the program `vector_runner`.
ghost use Rattle.std.specs.Prelude.{◌<◌};

use std::alloc::Global;
use std::io::Read;
use twkb_blob::{BlobFault, Located, Reader, Session, Spans, StreamReader, StreamRoom};
use twkb_geom::{Flat, Limits};
use twkb_io::{Fuse, FuseEnd, InFault, Input, Tap};

// ---- the ways to read a geometry and to feed a piece

// A way to read: as a tree, as a tree with its spans, as rows, or as rows with their spans.
#[derive(Clone, Copy)]
enum Way {
    Tree,
    Located,
    Rows,
    Spans,
}

// The number of rows in a form that was read.
fn rows_in(flat: &Flat, answer: Result<bool, BlobFault>) -> Result<u64, BlobFault> {
    match answer {
        Ok(_) => Ok(u64::from(flat.node_count())),
        Err(fault) => Err(fault),
    }
}

// Reads the next tree, and counts its rows.
fn read_tree<R: Read>(alloc: Global, reader: &mut Reader<'_, R>) -> Result<u64, BlobFault> {
    match reader.next(alloc) {
        Ok(Some(geometry)) => {
            let rows = geometry.nodes();
            drop(geometry);
            Ok(rows)
        }
        Ok(None) => Ok(0),
        Err(fault) => Err(fault),
    }
}

// Reads the next tree with its spans, and counts the spans.
fn read_spans<R: Read>(alloc: Global, reader: &mut Reader<'_, R>) -> Result<u64, BlobFault> {
    match reader.next_located(alloc) {
        Ok(Some(located)) => {
            let spans = located.spans.as_slice().len();
            drop(located);
            Ok(spans as u64)
        }
        Ok(None) => Ok(0),
        Err(fault) => Err(fault),
    }
}

// Reads rows, and counts them.
fn read_rows<R: Read>(
    alloc: Global,
    reader: &mut Reader<'_, R>,
    flat: &mut Flat,
) -> Result<u64, BlobFault> {
    let answer = reader.next_flat(alloc, flat);
    rows_in(flat, answer)
}

// Reads the next rows with their spans, and counts the spans; 0 if there are no rows.
fn read_spanned_rows<R: Read>(
    blobs: &mut StreamReader<'_, '_, R>,
    spans: &mut Spans,
) -> Result<u64, BlobFault> {
    match blobs.next_spans(spans) {
        Ok(true) => Ok(spans.as_slice().len() as u64),
        Ok(false) => Ok(0),
        Err(fault) => Err(fault),
    }
}

// The answers to two calls of a reader of a whole stream.
fn read_spans_twice<R: Read>(alloc: Global, tap: &mut Tap<R>) -> [Result<u64, BlobFault>; 2] {
    let mut room = StreamRoom::new(alloc);
    let mut blobs = StreamReader::new(Input::new(tap), Limits::standard(), &mut room);
    let mut spans = Spans::new(alloc);
    let first = read_spanned_rows(&mut blobs, &mut spans);
    let second = read_spanned_rows(&mut blobs, &mut spans);
    drop(spans);
    drop(blobs);
    [first, second]
}

// Reads a geometry, and counts its rows, or the spans of a tree that comes with them; 0 if there is
// none, or the fault.
fn read<R: Read>(
    alloc: Global,
    way: Way,
    reader: &mut Reader<'_, R>,
    flat: &mut Flat,
) -> Result<u64, BlobFault> {
    match way {
        Way::Tree => read_tree(alloc, reader),
        Way::Located => read_spans(alloc, reader),
        Way::Rows | Way::Spans => read_rows(alloc, reader, flat),
    }
}

// The answers to two calls of a reader over a device; rows with their spans are read by a reader
// of a whole stream.
fn read_twice<R: Read>(alloc: Global, way: Way, tap: &mut Tap<R>) -> [Result<u64, BlobFault>; 2] {
    if let Way::Spans = way {
        return read_spans_twice(alloc, tap);
    }
    let mut reader = Reader::new(Input::new(tap), Limits::standard());
    let mut flat = Flat::new(alloc);
    let first = read(alloc, way, &mut reader, &mut flat);
    let second = read(alloc, way, &mut reader, &mut flat);
    drop(flat);
    drop(reader);
    [first, second]
}

// Why a session refuses a piece, if it does.
fn fault_of(session: &mut Session, piece: &[u8]) -> Option<BlobFault> {
    session.feed(piece).err()
}

// ---- readers over a device that fails

// A line of two points.
const TWO: &[u8] = b"\x02\x00\x02\x02\x02\x08\x08";

// Whether a reader returns a failed read, and is then spent, for a line that is cut after `bytes`
// bytes and read `length` bytes at a time.
fn tells_failure(alloc: Global, way: Way, line: &[u8], length: usize, bytes: u64) -> bool
    requires { 0 < length }
{
    let mut tap = Tap::new(Fuse::new(line, bytes, length, FuseEnd::Fail, false));
    let [first, second] = read_twice(alloc, way, &mut tap);
    (first == Err(BlobFault::Device(InFault::Read))) & (second == Err(BlobFault::Spent))
}

// Whether a failed read is returned wherever the line is cut.
fn tells_each(alloc: Global, way: Way, line: &[u8], length: usize) -> bool
    requires { 0 < length }
{
    let mut are_told = true;
    for bytes in 0..line.len() as u64 {
        are_told &= tells_failure(alloc, way, line, length, bytes);
    }
    are_told
}

// Whether a failed read is returned for a line that comes byte by byte, and for one of near
// points in pieces of thirty bytes.
fn tells_both(alloc: Global, way: Way) -> bool {
    tells_each(alloc, way, TWO, 1) & tells_each(alloc, way, NEAR, 30)
}

#[test]
fn each_read_that_fails_is_a_device_fault(rt: HostRuntime) {
    let alloc = rt.alloc();
    let are_told = tells_both(alloc, Way::Tree) & tells_both(alloc, Way::Located);
    assert!(rt; are_told & tells_both(alloc, Way::Rows) & tells_both(alloc, Way::Spans));
}

// ---- want of memory. With each growth refused in turn (`make hostile`), an answer is the right
// one or want of memory, and that is final.

// A collection with ids: a multipolygon with an id, and a multilinestring of two lines. It has
// seven rows and three spans.
const NAMED: &[u8] =
    b"\x07\x04\x02\x02\x04\x06\x04\x01\x02\x01\x03\x02\x02\x02\x02\x02\x02\x05\x00\x02\x01\x02\x02\x01\x02\x02";

// Collections inside five others, and an empty point. Seven rows, seven spans.
const DEEP: &[u8] =
    b"\x07\x00\x01\x07\x00\x01\x07\x00\x01\x07\x00\x01\x07\x00\x01\x07\x00\x01\x01\x10";

// A multipoint of six points with ids, all but the first and the last taken at once. Seven rows, one span.
const SIX: &[u8] =
    b"\x04\x04\x06\x02\x02\x02\x02\x02\x02\x02\x02\x02\x02\x02\x02\x02\x02\x02\x02\x02\x02";

// A line of twenty points, each near the one before it, so that they are taken two at a time if
// they come in one piece. One row, one span.
const NEAR: &[u8] =
    b"\x02\x00\x14\x02\x02\x02\x02\x02\x02\x02\x02\x02\x02\x02\x02\x02\x02\x02\x02\x02\x02\x02\
    \x02\x02\x02\x02\x02\x02\x02\x02\x02\x02\x02\x02\x02\x02\x02\x02\x02\x02\x02\x02\x02";

// Whether `count` rows or spans were given, or memory lacked and the reader was spent.
fn are_given_or_lack(answers: [Result<u64, BlobFault>; 2], count: u64) -> bool {
    let [first, second] = answers;
    let is_lack = (first == Err(BlobFault::Memory)) & (second == Err(BlobFault::Spent));
    is_lack | (first == Ok(count))
}

// Whether a reader of this blob gives that many, or lacks memory.
fn gives_or_lacks(alloc: Global, way: Way, blob: &[u8], count: u64) -> bool {
    are_given_or_lack(read_twice(alloc, way, &mut Tap::new(blob)), count)
}

// Whether readers of all blobs give their numbers, or lack memory.
fn all_give_or_lack(alloc: Global, way: Way, named: u64, deep: u64, six: u64) -> bool {
    let are_named = gives_or_lacks(alloc, way, NAMED, named) & gives_or_lacks(alloc, way, SIX, six);
    are_named & gives_or_lacks(alloc, way, DEEP, deep) & gives_or_lacks(alloc, way, NEAR, 1)
}

#[test]
fn each_growth_of_a_reader_may_be_refused(rt: HostRuntime) {
    let trees = all_give_or_lack(rt.alloc(), Way::Tree, 7, 7, 7);
    let rows = all_give_or_lack(rt.alloc(), Way::Rows, 7, 7, 7);
    let spans = all_give_or_lack(rt.alloc(), Way::Spans, 3, 7, 1);
    assert!(rt; trees & rows & spans & all_give_or_lack(rt.alloc(), Way::Located, 3, 7, 1));
}

// Whether this is want of memory, and the session is spent.
fn is_spent(session: &mut Session, fault: BlobFault) -> bool {
    (fault == BlobFault::Memory) & (fault_of(session, &[]) == Some(BlobFault::Spent))
}

// Whether a session gives a geometry for the whole piece, or lacks memory and is spent.
fn feeds_or_lacks(session: &mut Session, piece: &[u8]) -> bool {
    match session.feed(piece) {
        Ok((used, geometry)) => {
            let is_given = geometry.is_some();
            drop(geometry);
            is_given & (used == piece.len())
        }
        Err(fault) => is_spent(session, fault),
    }
}

// Whether a session gives this many rows for the whole piece, or lacks memory and is spent.
fn lends_or_lacks(session: &mut Session, piece: &[u8], rows: u32) -> bool {
    match session.feed_flat(piece) {
        Ok(answer) => (answer == (piece.len(), true)) & (session.flat().node_count() == rows),
        Err(fault) => is_spent(session, fault),
    }
}

// Whether a session takes the bytes one by one and then has no open geometry, or lacks memory and
// is spent.
fn takes_or_lacks(session: &mut Session, bytes: &[u8]) -> bool {
    for byte in bytes {
        if let Some(fault) = fault_of(session, &[*byte]) {
            return is_spent(session, fault);
        }
    }
    session.frames() == 0
}

// Whether a session that is fed the blob in this way (as one tree, as bytes or as rows) gives its
// geometry, or lacks memory.
fn is_fed_or_lacks(alloc: Global, way: Way, bytes: &[u8], rows: u32) -> bool {
    let mut session = Session::new(alloc, Limits::standard());
    let is_fed = match way {
        Way::Tree => feeds_or_lacks(&mut session, bytes),
        Way::Located => takes_or_lacks(&mut session, bytes),
        Way::Rows | Way::Spans => lends_or_lacks(&mut session, bytes, rows),
    };
    drop(session);
    is_fed
}

// Whether sessions give the geometries of all blobs, or lack memory.
fn all_are_fed_or_lack(alloc: Global, way: Way) -> bool {
    let are_deep = is_fed_or_lacks(alloc, way, NAMED, 7) & is_fed_or_lacks(alloc, way, DEEP, 7);
    are_deep & is_fed_or_lacks(alloc, way, SIX, 7) & is_fed_or_lacks(alloc, way, NEAR, 1)
}

#[test]
fn each_growth_of_a_session_may_be_refused(rt: HostRuntime) {
    let trees = all_are_fed_or_lack(rt.alloc(), Way::Tree);
    let bytes = all_are_fed_or_lack(rt.alloc(), Way::Located);
    assert!(rt; trees & bytes & all_are_fed_or_lack(rt.alloc(), Way::Rows));
}

// A collection with ids, of a multipoint of two points with ids, and of a collection with an id
// of a multipoint of one with an id. Seven rows.
const ALL_NAMED: &[u8] =
    b"\x07\x04\x02\x02\x04\x04\x04\x02\x02\x04\x02\x02\x02\x02\x07\x04\x01\x06\x04\x04\x01\x08\x02\x02";

// Whether a session that was fed the blob takes it again, in one piece and byte by byte, without
// asking for memory.
fn grows_no_more(alloc: Global, blob: &[u8], rows: u32) -> bool {
    let mut session = Session::new(alloc, Limits::standard());
    match session.feed_flat(blob) {
        Ok(_) => lends(&mut session, blob, rows) & lends_bytewise(&mut session, blob, rows),
        Err(fault) => is_spent(&mut session, fault),
    }
}

// Whether a session that was fed the bytes one by one takes the blob in one piece without asking
// for memory.
fn grows_no_more_after_bytes(alloc: Global, blob: &[u8], rows: u32) -> bool {
    let mut session = Session::new(alloc, Limits::standard());
    for byte in blob {
        if let Err(fault) = session.feed_flat(&[*byte]) {
            return is_spent(&mut session, fault);
        }
    }
    lends(&mut session, blob, rows)
}

// Whether a session gives this many rows for the whole piece.
fn lends(session: &mut Session, piece: &[u8], rows: u32) -> bool {
    let is_whole = session.feed_flat(piece) == Ok((piece.len(), true));
    is_whole & (session.flat().node_count() == rows)
}

// Whether a session gives this many rows if it is fed the bytes one by one.
fn lends_bytewise(session: &mut Session, bytes: &[u8], rows: u32) -> bool {
    for byte in bytes {
        if session.feed_flat(&[*byte]).is_err() {
            return false;
        }
    }
    session.flat().node_count() == rows
}

#[test]
fn a_session_makes_each_growth_once(rt: HostRuntime) {
    assert!(rt; grows_no_more(rt.alloc(), NAMED, 7) & grows_no_more(rt.alloc(), DEEP, 7));
    assert!(rt; grows_no_more(rt.alloc(), ALL_NAMED, 7) & grows_no_more(rt.alloc(), NEAR, 1));
    assert!(rt; grows_no_more_after_bytes(rt.alloc(), NEAR, 1));
}
