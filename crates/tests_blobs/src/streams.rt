//! Streams and their devices: calls of taps, blobs of an input one after another, trees and rows by
//! turns, lists of spans, and the texts of faults. Inputs, outputs and other sinks are tested by
//! the program `vector_runner`.
use std::alloc::Global;
use std::io::{Read, Write};
use twkb_blob::{
    BlobFault, BlobReason, EncodeFault, Reader, Span, Spans, StreamReader, StreamRoom,
};
use twkb_geom::{Flat, Kind, Limits, NodeId, PointId, Work};
use twkb_io::{Bytes, CountFull, Ending, Fuse, FuseEnd, InFault, Input, OutFault, Sink, Tap};
use twkb_points::Pt;
use twkb_polyline::PolyFault;
use twkb_tree::{GeomFault, own_parts};

// ---- what no clause says about taps, endings and bytes: that calls succeed, and how often a
// device is called

// Whether a read gives `count` bytes.
fn reads<R: Read>(reader: &mut R, count: usize) -> bool {
    let mut room = [0; 4];
    reader.read(&mut room).ok() == Some(count)
}

// Whether a reader of two bytes gives them, and then its end, even if it is read again.
fn ends_for_good<R: Read>(ending: &mut Ending<R>) -> bool {
    let is_given = reads(ending, 2) & !ending.has_ended();
    is_given & reads(ending, 0) & ending.has_ended() & reads(ending, 0)
}

#[test]
fn after_its_end_a_reader_is_asked_no_more(rt: HostRuntime) {
    let mut ending = Ending::new(Tap::new(b"ab".as_slice()));
    let has_ended = ends_for_good(&mut ending);
    let tap = ending.into_inner();
    assert!(rt; has_ended & (tap.calls() == 2) & (tap.given() == 2));
}

// The tap underneath counts the calls that reach it.
#[test]
fn each_read_of_a_tap_reaches_its_device_once(rt: HostRuntime) {
    let mut reader = Tap::new(Tap::new([7].as_slice()));
    let are_read = reads(&mut reader, 1) & reads(&mut reader, 0);
    assert!(rt; are_read & (reader.calls() == 2) & (reader.into_inner().calls() == 2));
}

// Whether bytes are unflushed after a write, until a flush.
fn writes_and_flushes<W: Write>(tap: &mut Tap<W>) -> bool {
    let is_written = tap.write(&[1, 2]).ok() == Some(2);
    is_written & tap.has_unflushed() & tap.flush().is_ok() & !tap.has_unflushed()
}

#[test]
fn each_write_and_flush_of_a_tap_reaches_its_device_once(rt: HostRuntime) {
    let mut writer = Tap::new(Tap::new(Vec::new(rt.alloc())));
    let are_written = writes_and_flushes(&mut writer);
    let is_counted = writer.calls() == 2;
    let device = writer.into_inner();
    assert!(rt; are_written & is_counted & (device.calls() == 2) & !device.has_unflushed());
}

// Whether a sink takes these bytes and holds them alone.
fn holds_alone(bytes: &mut Bytes, put: &[u8]) -> bool {
    bytes.put(put).is_ok() & (bytes.as_slice() == put)
}

#[test]
fn a_cleared_sink_holds_what_is_put_after(rt: HostRuntime) {
    let mut bytes = Bytes::new(rt.alloc());
    let is_held = holds_alone(&mut bytes, &[1, 2, 3]);
    bytes.clear();
    let is_empty = bytes.as_slice().is_empty();
    assert!(rt; is_held & is_empty & holds_alone(&mut bytes, &[4]));
}

// ---- blobs of an input, through one engine and one form

// Whether the next geometry has this many rows and points, and its last row this id.
fn gives<R: Read>(
    blobs: &mut StreamReader<'_, '_, R>,
    rows: u32,
    points: u32,
    last: Option<i64>,
) -> bool {
    let answer = blobs.next();
    let flat = &blobs.rows().flat;
    if rows == 0 || flat.node_count() != rows {
        return false;
    }
    let row = flat.node(NodeId(rows - 1), &mut Work::new()).row;
    (answer == Ok(true)) & (flat.point_count() == points) & (row.id == last)
}

// Whether a call gives this answer, and then no row is left.
fn stops<R: Read>(blobs: &mut StreamReader<'_, '_, R>, answer: Result<bool, BlobFault>) -> bool {
    let is_answered = blobs.next() == answer;
    is_answered & blobs.rows().flat.is_empty()
}

// Two points with ids, a collection of a point and an empty line, and a single point.
const KINDS: &[u8] =
    b"\x04\x04\x02\x02\x04\x00\x00\x02\x02\x07\x04\x02\x0E\x01\x01\x00\x02\x02\x02\x10\x01\x00\x04\x02";

// Whether a reader gives the three geometries, and then the end for good.
fn gives_all<R: Read>(alloc: Global, tap: &mut Tap<R>) -> bool {
    let mut room = StreamRoom::new(alloc);
    let mut blobs = StreamReader::new(Input::new(tap), Limits::standard(), &mut room);
    let are_given = gives(&mut blobs, 3, 2, Some(2))
        & gives(&mut blobs, 3, 1, Some(-1))
        & gives(&mut blobs, 1, 1, None);
    are_given & stops(&mut blobs, Ok(false)) & stops(&mut blobs, Ok(false))
}

#[test]
fn blobs_of_an_input_come_one_after_another(rt: HostRuntime) {
    assert!(rt; gives_all(rt.alloc(), &mut Tap::new(KINDS)));
}

// Whether the next geometry comes with this many spans, and the last of them begins here.
fn gives_spans<R: Read>(
    blobs: &mut StreamReader<'_, '_, R>,
    spans: &mut Spans,
    count: usize,
    offset: u64,
) -> bool {
    let answer = blobs.next_spans(spans);
    let told = spans.as_slice();
    if count == 0 || told.len() != count {
        return false;
    }
    (answer == Ok(true)) & (told[count - 1].offset == offset)
}

// Whether the spans of the first two come in one list, the third comes without spans, and nothing
// comes at the end.
fn tells_spans<R: Read>(alloc: Global, tap: &mut Tap<R>) -> bool {
    let mut room = StreamRoom::new(alloc);
    let mut blobs = StreamReader::new(Input::new(tap), Limits::standard(), &mut room);
    let mut spans = Spans::new(alloc);
    let are_told = gives_spans(&mut blobs, &mut spans, 1, 0)
        & gives_spans(&mut blobs, &mut spans, 3, 18)
        & gives(&mut blobs, 1, 1, None);
    let is_ended = blobs.next_spans(&mut spans) == Ok(false);
    are_told & is_ended & spans.as_slice().is_empty()
}

#[test]
fn rows_come_with_spans_and_without_whatever_the_reads(rt: HostRuntime) {
    for step in 1..12 {
        let mut tap = Tap::new(Fuse::new(KINDS, 99, step, FuseEnd::Fail, false));
        assert!(rt; tells_spans(rt.alloc(), &mut tap), "{step} bytes");
    }
}

// The input ends inside the second blob, at its byte 12.
const CUT: &[u8] = b"\x04\x04\x02\x02\x04\x00\x00\x02\x02\x01\x00\x04";

// Whether the blob before a cut one is given, and the fault is final.
fn tells_cut<R: Read>(alloc: Global, tap: &mut Tap<R>) -> bool {
    let mut room = StreamRoom::new(alloc);
    let mut blobs = StreamReader::new(Input::new(tap), Limits::standard(), &mut room);
    let fault = BlobFault::At {
        offset: 12,
        reason: BlobReason::Truncated,
    };
    gives(&mut blobs, 3, 2, Some(2))
        & stops(&mut blobs, Err(fault))
        & stops(&mut blobs, Err(BlobFault::Spent))
}

#[test]
fn a_cut_blob_ends_the_reader(rt: HostRuntime) {
    assert!(rt; tells_cut(rt.alloc(), &mut Tap::new(CUT)));
}

// Whether a failed read is reported, and leaves no row.
fn tells_failure<R: Read>(alloc: Global, tap: &mut Tap<R>) -> bool {
    let mut room = StreamRoom::new(alloc);
    let mut blobs = StreamReader::new(Input::new(tap), Limits::standard(), &mut room);
    stops(&mut blobs, Err(BlobFault::Device(InFault::Read)))
        & stops(&mut blobs, Err(BlobFault::Spent))
}

#[test]
fn each_read_that_fails_ends_the_reader(rt: HostRuntime) {
    for bytes in 0..7 {
        let line = b"\x02\x00\x02\x02\x02\x08\x08".as_slice();
        let mut tap = Tap::new(Fuse::new(line, bytes, 1, FuseEnd::Fail, false));
        assert!(rt; tells_failure(rt.alloc(), &mut tap), "{bytes} bytes");
    }
}

// ---- trees and rows in turn from one reader

// Two points: (1, 2) and (3, 5).
const TWO: &[u8] = b"\x01\x00\x02\x04\x01\x00\x06\x0A";

// Whether these are a point at this place.
fn are_at(points: &[Pt], place: (i64, i64)) -> bool {
    match points {
        [point] => (point.x(), point.y()) == place,
        _ => false,
    }
}

// Whether the next geometry, as a tree, is the point at this place.
fn gives_tree<R: Read>(alloc: Global, reader: &mut Reader<'_, R>, place: (i64, i64)) -> bool {
    match reader.next(alloc) {
        Ok(Some(geometry)) => {
            let (_, points) = own_parts(geometry.shape());
            let is_given = are_at(points, place);
            drop(geometry);
            is_given
        }
        _ => false,
    }
}

// Whether the next geometry, as rows, is the point at this place.
fn gives_rows<R: Read>(alloc: Global, reader: &mut Reader<'_, R>, place: (i64, i64)) -> bool {
    let mut flat = Flat::new(alloc);
    let answer = reader.next_flat(alloc, &mut flat);
    if flat.point_count() != 1 {
        return false;
    }
    let point = flat.point(PointId(0), &mut Work::new());
    (answer == Ok(true)) & ((point.x(), point.y()) == place)
}

// Whether the first of the points comes as a tree and the second as a row, or the other way round, and then the end.
fn gives_both<R: Read>(alloc: Global, tap: &mut Tap<R>, is_tree_first: bool) -> bool {
    let mut reader = Reader::new(Input::new(tap), Limits::standard());
    let are_given = if is_tree_first {
        gives_tree(alloc, &mut reader, (1, 2)) & gives_rows(alloc, &mut reader, (3, 5))
    } else {
        gives_rows(alloc, &mut reader, (1, 2)) & gives_tree(alloc, &mut reader, (3, 5))
    };
    are_given & (reader.next_flat(alloc, &mut Flat::new(alloc)) == Ok(false))
}

#[test]
fn trees_and_rows_come_by_turns(rt: HostRuntime) {
    let is_tree_first = gives_both(rt.alloc(), &mut Tap::new(TWO), true);
    assert!(rt; is_tree_first & gives_both(rt.alloc(), &mut Tap::new(TWO), false));
}

// ---- lists of spans that are made from a vector and turned back into one

// The span of the empty linestring of a collection, from the specification's bytes.
const SPAN: Span = Span {
    level: 1,
    offset: 15,
    kind: Kind::Linestring,
    precision: 0,
    metadata: 0x12,
    length: 3,
    points: 0,
};

// Whether a list of this span shows it and gives it back.
fn keeps_it(alloc: Global) -> bool {
    match Vec::from_slice(alloc, &[SPAN]) {
        Ok(items) => {
            let spans = Spans::from_vec(items);
            let is_shown = spans.as_slice() == [SPAN].as_slice();
            is_shown & (spans.into_vec().as_slice() == [SPAN].as_slice())
        }
        Err(_) => false,
    }
}

#[test]
fn a_list_of_spans_keeps_its_items(rt: HostRuntime) {
    assert!(rt; keeps_it(rt.alloc()));
}

// ---- the texts of faults that no row of the program `vector_runner` has, or none alone

// Whether faults of inputs, outputs and blobs have their texts.
fn are_told(alloc: Global) -> bool {
    let long = BlobFault::Device(InFault::TooLong);
    let (memory, spent) = (BlobFault::Memory, BlobFault::Spent);
    match format!(in alloc;
        "{memory}, {long}, {spent}, {}, {CountFull}",
        OutFault::TooLong
    ) {
        Ok(told) => {
            told.as_str()
                == "out of memory, input too long, reader was refused before, output too long, too many bytes to count"
        }
        Err(_) => false,
    }
}

// Whether faults of polylines, geometries and encoding have their texts.
fn are_told_too(alloc: Global) -> bool {
    let poly = PolyFault::Memory;
    let (precision, ids) = (GeomFault::BadPrecision, GeomFault::BadIds);
    let memory = EncodeFault::<OutFault>::Memory;
    let sink = EncodeFault::Sink(OutFault::Stuck);
    match format!(in alloc; "{poly}, {precision}, {ids}, {memory}, {sink}") {
        Ok(told) => {
            told.as_str()
                == "out of memory, precision not from -8 to 7, not one id for each member, out of \
                    memory, the sink refused the bytes"
        }
        Err(_) => false,
    }
}

#[test]
fn faults_have_their_texts(rt: HostRuntime) {
    assert!(rt; are_told(rt.alloc()) & are_told_too(rt.alloc()));
}
