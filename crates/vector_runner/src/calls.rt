//! Calls one after the other on one reader, session, input, output or sink, after its end or its
//! fault too.
use super::streams::{self, feed_tree, read_next};
use super::tables::{read_form, read_tree};
use super::text::{
    bytes_of, count_of, cut_word, number_of, put, put_counts, put_hex, put_lines, put_shown,
    put_stop, table_of,
};
use std::alloc::Global;
use std::fmt::Display;
use std::io::{Read, Write};
use twkb_blob::{Reader, Session};
use twkb_geom::{Flat, Kind, Limits, Row, Rows};
use twkb_io::{Bytes, Count, Fuse, FuseEnd, InFault, Input, OutFault, Output, Sink, Tap};
use twkb_points::Pt;
use twkb_table::TableReader;

// ---- readers of blobs and of tables

/// How often a reader is called.
const CALLS: usize = 4;

// Prints why there was no geometry, if there was none.
fn put_end<D: Display + Copy>(alloc: Global, answer: Result<bool, D>, text: &mut Vec<u8>) {
    if let Ok(false) = answer {
        put(text, b"; end");
    }
    put_stop(alloc, text, answer.err());
}

// Prints the answers of one reader of blobs.
fn put_reads<R: Read>(alloc: Global, way: streams::Way, tap: &mut Tap<R>, text: &mut Vec<u8>) {
    let mut reader = Reader::new(Input::new(tap), Limits::standard());
    let mut flat = Flat::new(alloc);
    for _ in 0..CALLS {
        let mut found = Vec::new(alloc);
        let answer = read_next(alloc, way, &mut reader, &mut flat, &mut found);
        match way {
            streams::Way::Located => put(text, &found),
            _ => put_hex(alloc, text, &found),
        }
        put_end(alloc, answer, text);
    }
}

/// Prints the answers to four calls of a reader of blobs, which gives trees, trees with spans, or
/// rows: full blobs or spans, the end, or a fault.
pub fn put_blob_calls(alloc: Global, bytes: &[u8], text: &mut Vec<u8>) {
    put(text, b"\n  trees");
    put_reads(alloc, streams::Way::Trees, &mut Tap::new(bytes), text);
    put(text, b"\n  located");
    put_reads(alloc, streams::Way::Located, &mut Tap::new(bytes), text);
    put(text, b"\n  rows");
    put_reads(alloc, streams::Way::Rows, &mut Tap::new(bytes), text);
}

// Prints the answers of one reader of a table, which gives trees.
fn put_trees<R: Read>(alloc: Global, tap: &mut Tap<R>, text: &mut Vec<u8>) {
    let mut reader = TableReader::new(alloc, tap, Limits::standard());
    for _ in 0..CALLS {
        let mut rows = Vec::new(alloc);
        let answer = read_tree(&mut reader, &mut rows);
        put_lines(text, &rows);
        put_end(alloc, answer, text);
    }
}

// Whether a form admits a root of one point.
fn admits_a_point(flat: &Flat) -> bool {
    let row = Row {
        depth: 0,
        kind: Kind::Point,
        id: None,
        precision: Some(0),
    };
    match Pt::try_new(2, 1) {
        Some(point) => flat.admits(&row, &[point]),
        None => false,
    }
}

// Prints the answers of one reader of a table, which fills one form, and after each whether the
// form admits a root of one point.
fn put_forms<R: Read>(alloc: Global, tap: &mut Tap<R>, text: &mut Vec<u8>) {
    let mut reader = TableReader::new(alloc, tap, Limits::standard());
    let mut form = Rows {
        flat: Flat::new(alloc),
    };
    for _ in 0..CALLS {
        let mut rows = Vec::new(alloc);
        let answer = read_form(&mut reader, &mut form, &mut rows);
        put_lines(text, &rows);
        put_end(alloc, answer, text);
        put_shown(alloc, text, b" ", &admits_a_point(&form.flat));
    }
}

/// Prints the answers to four calls of a reader of a table, which gives trees, or fills a form:
/// rows, the end, or a fault.
pub fn put_table_calls(alloc: Global, rows: &[u8], text: &mut Vec<u8>) {
    let table = table_of(alloc, rows);
    put(text, b"\n  trees");
    put_trees(alloc, &mut Tap::new(table.as_slice()), text);
    put(text, b"\n  forms");
    put_forms(alloc, &mut Tap::new(table.as_slice()), text);
}

// ---- sessions that are fed, and the geometries that they give

// Feeds a piece, and prints how many bytes were used and are held, how many geometries are begun,
// and the full blob of the one that ended, if one did; or the fault.
fn put_feed(alloc: Global, session: &mut Session, piece: &[u8], text: &mut Vec<u8>) {
    let mut blob = Vec::new(alloc);
    let fed = feed_tree(alloc, session, piece, &mut blob);
    put(text, b"\n  feed");
    if let Ok(used) = fed {
        let counts = [used as u64, session.held() as u64, session.frames() as u64];
        put_counts(alloc, text, b"", &counts);
    }
    put_hex(alloc, text, &blob);
    put_stop(alloc, text, fed.err());
}

/// Prints the answers of a new session to calls: the digits of a piece, `none` for a piece
/// without bytes, or `finish`.
pub fn put_session(alloc: Global, calls: &str, text: &mut Vec<u8>) {
    let mut session = Session::new(alloc, Limits::standard());
    for call in calls.split(' ') {
        if call == "finish" {
            put(text, b"\n  finish");
            put_stop(alloc, text, session.finish().err());
        } else {
            put_feed(alloc, &mut session, &bytes_of(alloc, call), text);
        }
    }
}

// ---- inputs and outputs over devices that are cut or fail, and sinks

// Makes a device as words describe it, and returns the rest of the words: the most bytes a call,
// the most in all, and how it ends.
fn cut_device<D: Drop>(device: D, words: &str) -> (Tap<Fuse<D>>, &str) {
    let (step, rest) = cut_word(words);
    let (left, rest) = cut_word(rest);
    let (end, rest) = cut_word(rest);
    let step = count_of(step).max(1) as usize;
    let kind = if end == "ends" {
        FuseEnd::Zero
    } else {
        FuseEnd::Fail
    };
    let fuse = Fuse::new(device, number_of(left), step, kind, end == "fails_flush");
    (Tap::new(fuse), rest)
}

// Prints a byte, the end, or a fault.
fn put_next(alloc: Global, answer: Result<Option<u8>, InFault>, text: &mut Vec<u8>) {
    match answer {
        Ok(Some(byte)) => put_shown(alloc, text, b" ", &byte),
        Ok(None) => put(text, b" end"),
        Err(fault) => put_shown(alloc, text, b", ", &fault),
    }
}

// Prints the answers to so many calls for a byte, then the number of bytes given and of failures.
fn put_calls<R: Read>(alloc: Global, tap: &mut Tap<R>, calls: u32, text: &mut Vec<u8>) {
    let mut input = Input::new(tap);
    for _ in 0..calls {
        put_next(alloc, input.next(), text);
    }
    put_counts(alloc, text, b";", &[input.offset(), input.failures()]);
}

/// Prints the answers of an input over a device of nine bytes, the numbers of bytes given and of
/// failures, and the calls of the device.
pub fn put_input(alloc: Global, words: &str, text: &mut Vec<u8>) {
    let (mut tap, calls) = cut_device([1, 2, 3, 4, 5, 6, 7, 8, 9].as_slice(), words);
    put(text, b"\n  input");
    put_calls(alloc, &mut tap, count_of(calls), text);
    put_shown(alloc, text, b" ", &tap.calls());
}

// Prints that a call went through, or its fault.
fn put_done(alloc: Global, answer: Result<(), OutFault>, text: &mut Vec<u8>) {
    match answer {
        Ok(()) => put(text, b" done"),
        Err(fault) => put_shown(alloc, text, b", ", &fault),
    }
}

// Prints the answers to calls: the digits of a put, `none` for one without bytes, or `flush`; then
// the numbers of bytes sent and of failures.
fn put_puts<W: Write>(alloc: Global, tap: &mut Tap<W>, calls: &str, text: &mut Vec<u8>) {
    let mut output = Output::new(tap);
    for call in calls.split(' ') {
        let answer = if call == "flush" {
            output.flush()
        } else {
            output.put(&bytes_of(alloc, call))
        };
        put_done(alloc, answer, text);
    }
    put_counts(alloc, text, b";", &[output.sent(), output.failures()]);
}

/// Prints the answers of an output over a device, the numbers of bytes sent and of failures, the
/// calls of the device, and what it took.
pub fn put_output(alloc: Global, words: &str, text: &mut Vec<u8>) {
    let (mut tap, calls) = cut_device(Vec::new(alloc), words);
    put(text, b"\n  output");
    put_puts(alloc, &mut tap, calls, text);
    put_shown(alloc, text, b" ", &tap.calls());
    put_hex(alloc, text, &tap.into_inner().into_inner());
}

/// Prints how many bytes a sink counts of these puts, and the bytes that another keeps.
pub fn put_sinks(alloc: Global, puts: &str, text: &mut Vec<u8>) {
    let mut count = Count::new();
    let mut kept = Bytes::new(alloc);
    for digits in puts.split(' ') {
        let bytes = bytes_of(alloc, digits);
        let _are_put = count.put(&bytes).is_ok() & kept.put(&bytes).is_ok();
    }
    put_counts(alloc, text, b"\n  sinks", &[count.total()]);
    put_hex(alloc, text, &kept.into_vec());
}
