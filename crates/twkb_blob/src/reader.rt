//! The blobs of an input, one after another.
ghost use Rattle.std.specs.Prelude.{◌≡◌, ◌<◌, ◌↔◌, [], true, false, Err, None, length, OnOk, OnErr};
ghost use Rattle.twkb_grammar.specs.Noting.{no_notes};

use crate::fault::{BlobFault, fault_at, judge_end};
use crate::spans::{Located, Spans};
use std::alloc::Global;
use std::io::Read;
use twkb_engine::{Engine, NoSpans, SpanNotes};
use twkb_flat::Flat;
use twkb_io::Input;
use twkb_tree::{Geometry, Limits};

// What a reader does in the next call: it reads, or returns the end again, or `Spent`.
#[derive(Clone, Copy)]
pub(crate) enum State {
    Ready,
    Ended,
    Spent,
}

/// The blobs of an input, one after another, each read as its bytes come.
#[derive(Drop)]
pub struct Reader<'a, R: Read> {
    input: Input<'a, R>,
    limits: Limits,
    state: State,
}

impl<'a, R: Read> Reader<'a, R> {
    ghost use Rattle.twkb_io.specs.Inputs.{given};
    ghost use Rattle.twkb_blob.specs.Readers.{reader_input, reader_limits, is_spent, has_ended, IsNext};
    ghost use Rattle.twkb_blob.specs.Readers.{IsAbreast, IsTreeOf, PartAhead, ReadsNext, ReadsRows, stopped_at};
    ghost use Rattle.twkb_blob.specs.Located.{IsLocated, ReadsWith};

    /// Makes a reader of what the input still has, which has read nothing. It refuses a geometry
    /// past the limits when it reads it. Takes no memory.
    #[inline(always)]
    pub fn new(input: Input<'a, R>, limits: Limits) -> Reader<'a, R>
        ensures input { reader_input result ≡ input.entry }
        ensures limits { reader_limits result ≡ limits }
        ensures fresh { is_spent result ≡ false }
        ensures not_ended { has_ended result ≡ false }
    {
        Reader {
            input,
            limits,
            state: State::Ready,
        }
    }

    // The number of bytes that left the input, at most 2^62. Takes no memory.
    pub(crate) fn offset(&self) -> u64
        ensures { result ≡ given (reader_input self.now) }
    {
        self.input.offset()
    }

    /// Reads the next geometry, whose blob alone leaves the input, or returns `None` at the input's
    /// end. An `Err` is `Memory`, a fault of the device, or the first fault of a blob that is
    /// refused or cut. After an `Err` each call returns `Spent`, and after the end `None`; neither
    /// reads. Takes memory for the geometry, and anew in each call for rows, points, ids and open
    /// collections, but none for what a count announces before it comes.
    pub fn next(&mut self, alloc: Global) -> Result<Option<Geometry>, BlobFault>
        ensures shared { ReadsNext None self.old self.new result }
        ensures next { is_spent self.old ≡ false → has_ended self.old ≡ false
            → IsNext (reader_limits self.old) (reader_input self.old)
            (reader_input self.new) result }
        ensures memory { result ≡ Err BlobFault.Memory → PartAhead (reader_limits self.old) [] (reader_input self.old) }
        ensures spent { (result ≡ Err BlobFault.Spent) ↔ (is_spent self.old ≡ true) }
    {
        let mut flat = Flat::new(alloc);
        if !self.next_flat(alloc, &mut flat)? {
            return Ok(None);
        }
        let geometry = self.tree_of(alloc, &flat)?;
        Ok(Some(geometry))
    }

    /// Reads the next geometry as `next` does, in place of the rows of a flat form, and returns
    /// whether there was one; after a false and after an `Err` the form has no rows. Calls of it
    /// and of the other methods may be mixed. Takes memory for rows and points past the room of the
    /// form, and anew in each call for ids and open collections.
    pub fn next_flat(&mut self, alloc: Global, flat: &mut Flat) -> Result<bool, BlobFault>
        ensures { ReadsRows self.old self.new result flat.new }
    {
        let mut engine = Engine::new(alloc, self.limits, self.input.offset());
        self.read_with(&mut engine, flat, &mut NoSpans)
    }

    /// Reads the next geometry as `next` does, and returns it with the spans of its headers, whose
    /// offsets are in bytes from where the input began. Takes memory as `next` does, and for the
    /// spans.
    pub fn next_located(&mut self, alloc: Global) -> Result<Option<Located>, BlobFault>
        ensures shared { ReadsNext None self.old self.new result }
        ensures next { is_spent self.old ≡ false → has_ended self.old ≡ false
            → IsLocated (reader_limits self.old) (reader_input self.old)
            (reader_input self.new) result }
        ensures memory { result ≡ Err BlobFault.Memory → PartAhead (reader_limits self.old) [] (reader_input self.old) }
        ensures spent { (result ≡ Err BlobFault.Spent) ↔ (is_spent self.old ≡ true) }
    {
        let mut flat = Flat::new(alloc);
        let mut spans = Spans::new(alloc);
        // no span is open
        spans.notes.restart();
        let mut engine = Engine::new(alloc, self.limits, self.input.offset());
        if !self.read_with(&mut engine, &mut flat, &mut spans.notes)? {
            return Ok(None);
        }
        let geometry = self.tree_of(alloc, &flat)?;
        Ok(Some(Located { geometry, spans }))
    }

    // Reads the next blob with an engine, and returns whether there was one: its bytes alone leave
    // the input, the form has its rows, `spans`, which must have noted nothing, notes its spans,
    // and the engine is where the next one begins. Unless the reader has ended or is spent, the
    // engine must have its limits and be where the blob begins. After a false or an `Err`, which is
    // as with `next`, the form has no rows, and nothing is known of the spans and the engine. Takes
    // memory as `Engine::feed` does.
    #[inline(always)]
    pub(crate) fn read_with<S: SpanNotes>(
        &mut self,
        engine: &mut Engine,
        flat: &mut Flat,
        spans: &mut S,
    ) -> Result<bool, BlobFault>
        requires abreast { IsAbreast self.old engine.old }
        requires no_notes { S.holds spans.old no_notes }
        ensures { ReadsWith S.holds self.old self.new result flat.new spans.new engine.new }
    {
        flat.clear();
        match self.state {
            State::Ready => {}
            State::Ended => return Ok(false),
            State::Spent => return Err(BlobFault::Spent),
        }
        let stopped = loop {
            // learnt: where the engine stands, the bytes end inside a blob, or there are none
            let _learnt = engine.is_between();
            if let Err(fault) = self.input.fill() {
                break Err(BlobFault::Device(fault));
            }
            let piece = self.input.held();
            if piece.is_empty() {
                break judge_end(engine).and(Ok(false));
            }
            let start = engine.start();
            match engine.feed(flat, spans, piece) {
                Ok((used, ends)) => {
                    self.input.advance(used);
                    if ends {
                        return Ok(true);
                    }
                }
                Err(stop) => break Err(fault_at(start + engine.bytes(), stop)),
            }
        };
        self.stop(flat, stopped)
    }

    // Builds the geometry of the rows of a form, which must be one at least. Takes memory; if it is
    // refused, returns `Memory`, and the reader is spent.
    fn tree_of(&mut self, alloc: Global, flat: &Flat) -> Result<Geometry, BlobFault>
        requires some { 0 < length flat.now }
        ensures tree { IsTreeOf flat.now result }
        ensures kept { OnOk result (self.new ≡ self.old) }
        ensures spent { OnErr result (self.new ≡ record self.old { state = stopped_at (Err BlobFault.Memory) }) }
    {
        let Ok(geometry) = flat.to_geometry(alloc) else {
            self.state = State::Spent;
            return Err(BlobFault::Memory);
        };
        Ok(geometry)
    }

    // Clears the form and returns `found`, with which reading stopped: the end, after which the
    // reader has ended, or an error, after which it is spent.
    fn stop(&mut self, flat: &mut Flat, found: Result<bool, BlobFault>) -> Result<bool, BlobFault>
        ensures answer { result ≡ found }
        ensures rows { flat.new ≡ [] }
        ensures state { self.new ≡ record self.old { state = stopped_at found } }
    {
        flat.clear();
        self.state = match found {
            Ok(_) => State::Ended,
            Err(_) => State::Spent,
        };
        found
    }
}
