//! The blobs of an input, one after another, through one session.
ghost use Rattle.std.specs.Prelude.{◌≡◌, [], false};
ghost use Rattle.std.proofs.Props.{props};
ghost use Rattle.twkb_blob.specs.Readers.{IsAbreast};

use crate::fault::BlobFault;
use crate::reader::Reader;
use crate::session::Session;
use crate::spans::Spans;
use std::alloc::Global;
use std::io::Read;
use twkb_engine::NoSpans;
use twkb_flat::Rows;
use twkb_io::Input;
use twkb_tree::Limits;

/// The memory in which a `StreamReader` reads, which can serve one stream after another. From a
/// stream to the next it keeps the memory of rows and points.
#[derive(Drop)]
pub struct StreamRoom {
    session: Session,
}

impl StreamRoom {
    /// Makes an empty room, which grows when a `StreamReader` reads into it. Takes no memory.
    pub fn new(alloc: Global) -> StreamRoom {
        StreamRoom {
            session: Session::new(alloc, Limits::standard()),
        }
    }
}

/// The blobs of an input, one after another, of which a borrowed room keeps the rows of the last
/// one. It is the quickest way through a whole stream; a `Reader` gives a geometry, or rows in a
/// form of the caller's.
#[derive(Drop)]
pub struct StreamReader<'a, 'b, R: Read> {
    reader: Reader<'a, R>,
    room: &'b mut StreamRoom,
    ghost abreast: { IsAbreast reader room.now.session.engine } by { Prim.hlevel props },
}

impl<'a, 'b, R: Read> StreamReader<'a, 'b, R> {
    ghost use Rattle.twkb_io.specs.Inputs.{given};
    ghost use Rattle.twkb_blob.specs.Readers.{ReadsRows, has_ended, is_spent, reader_input, reader_limits};
    ghost use Rattle.twkb_blob.specs.Located.{ReadsSpans};
    ghost use Rattle.twkb_blob.specs.StreamReaders.{reader_in, rows_in};

    /// Makes a reader of what the input still has, which has read nothing, and forgets the rows in
    /// the room. It refuses a geometry past the limits when it reads it. Takes no memory.
    #[inline(always)]
    pub fn new(
        input: Input<'a, R>,
        limits: Limits,
        room: &'b mut StreamRoom,
    ) -> StreamReader<'a, 'b, R>
        ensures input { reader_input (reader_in result) ≡ input.entry }
        ensures limits { reader_limits (reader_in result) ≡ limits }
        ensures fresh { is_spent (reader_in result) ≡ false }
        ensures not_ended { has_ended (reader_in result) ≡ false }
        ensures rows { rows_in result ≡ [] }
    {
        room.session.restart(limits, input.offset());
        StreamReader {
            reader: Reader::new(input, limits),
            room,
        }
    }

    /// Reads the next geometry, whose blob alone leaves the input, and returns whether there was
    /// one. `rows` gives its rows until the next call, and none after a false or an `Err`. An `Err`
    /// is as with `Reader::next`; after it each call returns `Spent`, and after the end false;
    /// neither reads. Takes memory for rows, points, ids and open collections past the room that
    /// there is. Inlined, since a call for each blob adds 40 instructions to a single point.
    #[inline(always)]
    pub fn next(&mut self) -> Result<bool, BlobFault>
        ensures { ReadsRows (reader_in self.old) (reader_in self.new) result (rows_in self.new) }
    {
        self.room.session.feed_from(&mut self.reader, &mut NoSpans)
    }

    /// Reads the next geometry as `next` does, and replaces the spans in the list by those of its
    /// headers, which are those that `Reader::next_located` gives. After a false and after an `Err`
    /// the list is empty, and so are the rows. Takes memory as `next` does, and for spans past the
    /// room of the list. Inlined as `next` is.
    #[inline(always)]
    pub fn next_spans(&mut self, spans: &mut Spans) -> Result<bool, BlobFault>
        ensures { ReadsSpans (reader_in self.old) (reader_in self.new) result (rows_in self.new) spans.new }
    {
        spans.notes.restart();
        let found = self
            .room
            .session
            .feed_from(&mut self.reader, &mut spans.notes);
        if let Ok(true) = found {
            return found;
        }
        spans.clear();
        found
    }

    /// The number of bytes that left the input, at most 2^62: as long as no call returned an error,
    /// those of the geometries that were read. Takes no memory.
    pub fn offset(&self) -> u64
        ensures { result ≡ given (reader_input (reader_in self.now)) }
    {
        self.reader.offset()
    }

    /// The rows of the geometry that the last call read, none if it read none, in a form that gives
    /// the points of each row as a slice. Takes no memory.
    pub fn rows(&self) -> &Rows
        ensures { result.now.flat ≡ rows_in self.now }
    {
        self.room.session.rows()
    }
}
