//! A stream of blobs that comes in pieces.
ghost use Rattle.std.specs.Prelude.{◌≡◌, ◌<◌, ◌≤◌, ◌↔◌, ◌+◌, [], if◌then◌else◌, List, ℕ, true, false};
ghost use Rattle.std.specs.Prelude.{Err, None, is_err, length, IfOk, IfSome, OnOk};
ghost use Rattle.twkb_io.specs.declared.TheConstants.{MAX_BYTES};
ghost use Rattle.twkb_tree.specs.Tree.{Tree};
ghost use Rattle.twkb_tree.specs.Rows.{rows};
ghost use Rattle.twkb_grammar.specs.Noting.{no_notes};
ghost use Rattle.twkb_engine.specs.Standing.{IsAlive, StandsAt, count_of};
ghost use Rattle.twkb_engine.specs.Taking.{BeginsAt};
ghost use Rattle.twkb_blob.specs.Readers.{failed_by_read, IsAbreast, IsTreeOf};
ghost use Rattle.twkb_blob.specs.Located.{ReadsWith};
ghost use Rattle.twkb_blob.specs.Faults.{Feeds};

use crate::fault::{BlobFault, fault_at, judge_end};
use crate::reader::Reader;
use std::alloc::Global;
use std::io::Read;
use twkb_engine::{Engine, NoSpans, SpanNotes};
use twkb_flat::{Flat, Rows};
use twkb_io::{InFault, MAX_BYTES};
use twkb_tree::{Geometry, Limits};

// Feeds a piece of a stream to an engine, up to the end of a blob, else all; returns how many bytes
// were taken, and whether a blob ends with them. An `Err` is `Memory`, the first refusal, or
// `TooLong` if the piece passes 2^62 bytes of the stream before a blob ends; the engine must not be
// fed after it, and must be at most 2^62 bytes into the stream. The rest is as with `Engine::feed`.
#[inline(always)]
fn feed_piece<S: SpanNotes>(
    engine: &mut Engine,
    flat: &mut Flat,
    spans: &mut S,
    piece: &[u8],
) -> Result<(usize, bool), BlobFault>
    requires few { engine.old.start + count_of engine.old ≤ MAX_BYTES }
    requires alive { IsAlive flat.old engine.old }
    ensures { Feeds S.holds engine.old flat.old spans.old piece.now result engine.new flat.new spans.new }
{
    let start = engine.start();
    let taken = engine.offset() + engine.held() as u64;
    let count = (MAX_BYTES - taken).min(piece.len() as u64) as usize;
    match engine.feed(flat, spans, &piece[..count]) {
        Ok((used, ends)) => {
            if !ends && count < piece.len() {
                // learnt: where the engine stands, the bytes end inside a blob, or there are none
                let _learnt = engine.is_between();
                return Err(BlobFault::Device(InFault::TooLong));
            }
            Ok((used, ends))
        }
        Err(stop) => Err(fault_at(start + engine.bytes(), stop)),
    }
}

/// A stream of blobs that comes in pieces. It keeps its limits, the rows of the geometry that is
/// read, as far as they came, and at most nine bytes of a number, and no other byte of the stream.
#[derive(Drop)]
pub struct Session {
    alloc: Global,
    engine: Engine,
    rows: Rows,
    /// Whether the geometry in `rows` is complete.
    is_whole: bool,
    spent: bool,
    ghost taken_few: { spent ≡ false → engine.start + count_of engine ≤ MAX_BYTES },
    ghost alive: { spent ≡ false → IsAlive (if is_whole then [] else rows.flat) engine },
}

impl Session {
    ghost use Rattle.twkb_blob.specs.Sessions.{Stands, FedFlat, FedSession, Finished, HeldOf, FramesOf, begun_rows};
    ghost use Rattle.twkb_blob.specs.Sessions.{with_end, is_spent, session_limits, session_held, session_open};
    ghost use Rattle.twkb_blob.specs.Sessions.{session_rows, FeedsOn};

    /// Makes a session at the start of a stream. It refuses a geometry past the limits when it
    /// reads it. Takes no memory.
    pub fn new(alloc: Global, limits: Limits) -> Session
        ensures stands { Stands [] [] result }
        ensures limits { session_limits result ≡ limits }
        ensures fresh { is_spent result ≡ false }
        ensures rows { session_rows result ≡ [] }
    {
        Session {
            alloc,
            engine: Engine::new(alloc, limits, 0),
            rows: Rows {
                flat: Flat::new(alloc),
            },
            is_whole: false,
            spent: false,
        }
    }

    /// Takes the next bytes of the stream from a piece, up to the end of a geometry, else all;
    /// returns how many, and the geometry if one ended: then feed the rest of the piece. An `Err`
    /// is `Memory`, the first refusal, or `TooLong` if the piece passes 2^62 bytes of the stream
    /// before a geometry ends; after it each feed and `finish` return `Spent`. Takes memory for the
    /// geometry and what the session keeps, and none for what a count announces before it comes.
    #[inline(always)]
    pub fn feed(&mut self, piece: &[u8]) -> Result<(usize, Option<Geometry>), BlobFault>
        ensures fed { (bytes : List ℕ) (gs : List Tree) → Stands bytes gs self.old
            → FedSession bytes gs piece.now result self.new }
        ensures rows { IfOk result (λ fed. IfSome fed.1 (λ g. rows 0 g ≡ session_rows self.new)) }
        ensures so_far { IfOk result (λ fed. fed.1 ≡ None → session_rows self.new ≡ begun_rows self.new) }
        ensures spent { (result ≡ Err BlobFault.Spent) ↔ (is_spent self.old ≡ true) }
        ensures stays { is_spent self.new ≡ is_err result }
        ensures limits { session_limits self.new ≡ session_limits self.old }
    {
        let (used, ends) = self.feed_flat(piece)?;
        // a geometry has rows: if a session stands for a stream there are some
        if !ends || self.rows.flat.is_empty() {
            return Ok((used, None));
        }
        Ok((used, Some(self.tree()?)))
    }

    // Builds the geometry of the rows, which must be one at least; the session must not be spent.
    // On `Ok` the session is as before. Takes memory; if it is refused, returns `Memory`, and the
    // session is spent and has no rows.
    // It is not written in `feed`, although it is inlined there, since each call of `feed` would
    // then first clear its local variables.
    #[inline(always)]
    fn tree(&mut self) -> Result<Geometry, BlobFault>
        requires live { self.old.spent ≡ false }
        requires some { 0 < length (session_rows self.old) }
        ensures tree { IsTreeOf (session_rows self.old) result }
        ensures kept { OnOk result (self.new ≡ self.old) }
        ensures stays { is_spent self.new ≡ is_err result }
        ensures limits { session_limits self.new ≡ session_limits self.old }
    {
        let Ok(geometry) = self.rows.flat.to_geometry(self.alloc) else {
            self.rows.flat.clear();
            self.spent = true;
            return Err(BlobFault::Memory);
        };
        Ok(geometry)
    }

    /// Takes the next bytes of the stream from a piece as `feed` does, with the same faults;
    /// returns how many, and whether a geometry ends with them, whose rows `flat` then gives until
    /// the next feed. Calls of it and of `feed` may be mixed. Takes memory for what the session
    /// keeps, past the room that it has.
    #[inline(always)]
    pub fn feed_flat(&mut self, piece: &[u8]) -> Result<(usize, bool), BlobFault>
        ensures fed { (bytes : List ℕ) (gs : List Tree) → Stands bytes gs self.old
            → FedFlat bytes gs piece.now result self.new }
        ensures so_far { IfOk result (λ fed. fed.1 ≡ false → session_rows self.new ≡ begun_rows self.new) }
        ensures within { IfOk result (λ fed. fed.0 ≤ length piece.now) }
        ensures unread { failed_by_read result ≡ false }
        ensures spent { (result ≡ Err BlobFault.Spent) ↔ (is_spent self.old ≡ true) }
        ensures stays { is_spent self.new ≡ is_err result }
        ensures limits { session_limits self.new ≡ session_limits self.old }
    {
        let used = self.feed_apart(piece)?;
        Ok((used, self.is_whole))
    }

    // Takes bytes as `feed_flat` does, and returns how many; `is_whole` then says whether a
    // geometry ends with them. Not inlined, and returns one number, which stays in a register. A
    // piece of one byte goes to `take_byte`, unless the stream is within 16 bytes of 2^62, and has
    // a return of its own: with one return for both ways it takes 3 in 100 more instructions.
    #[inline(never)]
    fn feed_apart(&mut self, piece: &[u8]) -> Result<usize, BlobFault>
        ensures fed { (bytes : List ℕ) (gs : List Tree) → Stands bytes gs self.old
            → FedFlat bytes gs piece.now (with_end self.new.is_whole result) self.new }
        ensures within { IfOk result (λ used. used ≤ length piece.now) }
        ensures kept { FeedsOn self.old self.new result }
    {
        if self.spent {
            return Err(BlobFault::Spent);
        }
        if self.is_whole {
            self.rows.flat.clear();
        }
        if piece.len() == 1 && self.engine.offset() < MAX_BYTES - 16 {
            let began = self.engine.start();
            // learnt: it holds at most nine bytes
            let _learnt = self.engine.held();
            let flat = &mut self.rows.flat;
            match self.engine.take_byte(flat, &mut NoSpans, piece[0]) {
                Ok(ends) => {
                    self.is_whole = ends;
                    return Ok(1);
                }
                Err(stop) => {
                    self.spent = true;
                    return Err(fault_at(began + self.engine.bytes(), stop));
                }
            }
        }
        match feed_piece(&mut self.engine, &mut self.rows.flat, &mut NoSpans, piece) {
            Ok((used, ends)) => {
                self.is_whole = ends;
                Ok(used)
            }
            Err(fault) => {
                self.spent = true;
                Err(fault)
            }
        }
    }

    // Starts the session afresh, even if it is spent, at this offset of a stream, which must be at
    // most 2^62, and with these limits of each geometry. Forgets the rows and keeps their memory;
    // frees that of ids and open collections. Takes no memory.
    pub(crate) fn restart(&mut self, limits: Limits, start: u64)
        requires few { start ≤ MAX_BYTES }
        ensures stands { StandsAt [] [] self.new.engine }
        ensures begins { BeginsAt start self.new.engine }
        ensures limits { session_limits self.new ≡ limits }
        ensures rows { session_rows self.new ≡ [] }
    {
        self.engine = Engine::new(self.alloc, limits, start);
        self.rows.flat.clear();
        self.is_whole = false;
        self.spent = false;
    }

    // Reads the next blob of a reader's input into the rows of the session, as `Reader::read_with`
    // does, and returns whether there was one; after a false or an `Err` the session is spent.
    // Unless the reader has ended or is spent, the session must have its limits and be where it is,
    // between two blobs. `spans` must have noted nothing. Takes memory as `Engine::feed` does.
    #[inline(always)]
    pub(crate) fn feed_from<R: Read, S: SpanNotes>(
        &mut self,
        reader: &mut Reader<'_, R>,
        spans: &mut S,
    ) -> Result<bool, BlobFault>
        requires abreast { IsAbreast reader.old self.old.engine }
        requires no_notes { S.holds spans.old no_notes }
        ensures { ReadsWith S.holds reader.old reader.new result (session_rows self.new) spans.new self.new.engine }
    {
        let found = reader.read_with(&mut self.engine, &mut self.rows.flat, spans);
        if let Ok(true) = found {
            self.is_whole = true;
            return found;
        }
        self.spent = true;
        found
    }

    /// The rows of the geometry that the last feed completed; if it completed none, the rows so far
    /// of the geometry that is read. After an `Err` nothing is known of them. Takes no memory.
    pub fn flat(&self) -> &Flat
        ensures { result.now ≡ session_rows self.now }
    {
        &self.rows.flat
    }

    /// The rows that `flat` gives, in a form that gives the points of each row as a slice. Takes no
    /// memory.
    pub fn rows(&self) -> &Rows
        ensures { result.now.flat ≡ session_rows self.now }
    {
        &self.rows
    }

    /// Ends the stream: `Ok` if no blob is begun, else `Truncated` at the offset of the item that
    /// is cut or missing; `Spent` after an `Err` or an earlier `finish`. Each later feed and
    /// `finish` return `Spent`. Takes no memory.
    #[tactic(auto, using(crate::proofs::Answering::finished))]
    pub fn finish(&mut self) -> Result<(), BlobFault>
        ensures unread { failed_by_read result ≡ false }
        ensures limits { session_limits self.new ≡ session_limits self.old }
        ensures finished { (bytes : List ℕ) (gs : List Tree) → Stands bytes gs self.old
            → Finished (session_limits self.old) bytes gs result }
        ensures spent { (result ≡ Err BlobFault.Spent) ↔ (is_spent self.old ≡ true) }
        ensures stays { is_spent self.new ≡ true }
    {
        if self.spent {
            return Err(BlobFault::Spent);
        }
        self.spent = true;
        judge_end(&self.engine)
    }

    /// The number of bytes that the session holds of a varint whose last byte was not fed yet, 0 to
    /// 9. After an `Err` nothing more is known of it. Takes no memory.
    pub fn held(&self) -> usize
        ensures held { (bytes : List ℕ) (gs : List Tree) → Stands bytes gs self.now
            → HeldOf (session_limits self.now) bytes gs result }
        ensures state { result ≡ session_held self.now }
        ensures few { result ≤ 9 }
    {
        // learnt: the engine stands after bytes that it took
        let _learnt = self.engine.is_between();
        self.engine.held()
    }

    /// The number of open geometries: their type byte was fed, and their end was not. It is 0
    /// between two blobs, and at most one more than the limit of nesting. After an `Err` nothing is
    /// known of it. Takes no memory.
    pub fn frames(&self) -> usize
        ensures open { (bytes : List ℕ) (gs : List Tree) → Stands bytes gs self.now
            → FramesOf (session_limits self.now) bytes gs result }
        ensures state { result ≡ session_open self.now }
        ensures few { (bytes : List ℕ) (gs : List Tree) → Stands bytes gs self.now
            → result ≤ (session_limits self.now).nest + 1 }
    {
        // learnt: what it holds begins a number
        let _learnt = self.engine.held();
        // learnt: the engine stands after bytes that it took
        let _learnt = self.engine.is_between();
        self.engine.open_geometries()
    }
}
