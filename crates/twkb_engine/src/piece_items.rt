//! The items of a piece of bytes, taken one at a time, byte by byte if need be, or many at once.
//! The piece must end at an offset of the stream of at most 2^63. After an `Err` the engine can
//! take nothing more.
ghost use Rattle.std.specs.Prelude.{◌≡◌, ◌+◌, ◌<◌, ◌≤◌, ◌∷◌, [], List, IfOk, length};
ghost use Rattle.twkb_engine.specs.Standing.{with_used};

use crate::blob_reason::BlobReason;
use crate::engine::Engine;
use crate::next_item::NextItem;
use crate::span_notes::SpanNotes;
use crate::stop::Stop;
use std::alloc::AllocError;
use twkb_body::{FrontNumber, front_number, front_point, take_members, take_row};
use twkb_flat::Flat;
use twkb_num::Step;
use twkb_tree::Kind;

impl Engine {
    ghost use Rattle.twkb_tree.specs.Rows.{Row};
    ghost use Rattle.twkb_engine.specs.Caps.{place_cap};
    ghost use Rattle.twkb_engine.specs.Standing.{IsAhead, IsAlive, IsReady, IsAnswer, FedBy, IsFrontItem, TakesAll};
    ghost use Rattle.twkb_engine.specs.Standing.{TakesMany, TakesList, held_in, count_of};
    ghost use Rattle.twkb_engine.specs.declared.next_item.NextItem.TheVariants.{X, Id};

    /// Takes one byte, which must end at an offset of the stream of at most 2^63, and returns
    /// whether the blob ends with it; a byte that does not end its varint is held. `flat`, `spans`,
    /// an `Err` and memory are as with `feed`.
    #[inline(always)]
    pub fn take_byte<S: SpanNotes>(
        &mut self,
        flat: &mut Flat,
        spans: &mut S,
        byte: u8,
    ) -> Result<bool, Stop>
        requires room { self.old.start + count_of self.old < place_cap }
        requires alive { IsAlive flat.old self.old }
        ensures limits { self.new.limits ≡ self.old.limits }
        ensures fed { FedBy S.holds self.old flat.old spans.old (byte ∷ []) (with_used 1 result)
            self.new flat.new spans.new }
    {
        if self.next.is_byte() {
            return self.take(flat, spans, u64::from(byte), 1);
        }
        let width = self.held.len() as u64 + 1;
        match self.held.step(byte) {
            Step::More => Ok(false),
            Step::Done { value, .. } => self.take(flat, spans, value, width),
            Step::TooLong => Err(Stop::Refused(BlobReason::BadVarint)),
            Step::BadUnit => Err(Stop::Refused(BlobReason::BadVarint)),
        }
    }

    // Reads the next item at the start of the bytes, and takes nothing. There must be a byte, and
    // none of the item may be held. An item that is a single byte is always complete: the number is
    // the byte, the width 1.
    #[inline(always)]
    fn front_item(&self, rest: &[u8]) -> FrontNumber
        requires some { 0 < length rest.now }
        requires alone { held_in self.now ≡ [] }
        ensures { IsFrontItem self.now rest.now result }
    {
        if self.next.is_byte() {
            return FrontNumber::Complete {
                number: u64::from(rest[0]),
                width: 1,
            };
        }
        front_number(rest)
    }

    // Takes the next item if it is complete at the start of the bytes and no byte of it is held;
    // else takes one byte of it, or refuses a number that is too long. There must be a byte.
    // Returns how many bytes were taken, and whether the blob ends with them. `flat`, `spans`, an
    // `Err` and memory are as with `feed`.
    #[inline(always)]
    fn take_item<S: SpanNotes>(
        &mut self,
        flat: &mut Flat,
        spans: &mut S,
        rest: &[u8],
    ) -> Result<(usize, bool), Stop>
        requires some { 0 < length rest.now }
        requires ready { IsReady flat.old self.old (length rest.now) }
        ensures some { IfOk result (λ taken. 0 < taken.0) }
        ensures answer { IsAnswer S.holds self.old flat.old spans.old rest.now result self.new flat.new spans.new }
    {
        if self.held.len() == 0 {
            match self.front_item(rest) {
                FrontNumber::Complete { number, width } => {
                    return Ok((width, self.take(flat, spans, number, width as u64)?));
                }
                FrontNumber::TooLong => return Err(Stop::Refused(BlobReason::BadVarint)),
                FrontNumber::Cut => {}
            }
        }
        Ok((1, self.take_byte(flat, spans, rest[0])?))
    }

    // Takes a point that is a geometry or a member itself, and goes past what ends with it. No list
    // of points may be open; an x must come next, none of it held; `flat` and `spans` are as with
    // `feed`. Returns how many bytes were taken, and whether the blob ends; 0 and false, with no
    // change, if the point is out of range, cut or too long. Refused if the size of a geometry that
    // ends here is not exact. Takes memory.
    #[inline(always)]
    fn take_point<S: SpanNotes>(
        &mut self,
        flat: &mut Flat,
        spans: &mut S,
        rest: &[u8],
    ) -> Result<(usize, bool), Stop>
        requires next { self.old.next ≡ X }
        requires last { self.old.points_left ≡ 0 }
        requires alone { held_in self.old ≡ [] }
        requires ready { IsReady flat.old self.old (length rest.now) }
        ensures { IsAnswer S.holds self.old flat.old spans.old rest.now result self.new flat.new spans.new }
    {
        let Some((position, used)) = front_point(self.position, rest) else {
            return Ok((0, false));
        };
        self.bytes += used as u64;
        self.position = position;
        Ok((used, self.put_last_point(flat, spans, position)?))
    }

    // Takes points of the open list, of which some must be left; an x must come next, none of it
    // held. Does not go past the list's end. Returns how many bytes they had; 0 if the next is out
    // of range, cut or too long, or if `takes_points` of the form is false for all that are left.
    // Takes memory.
    #[inline(always)]
    fn take_list(&mut self, flat: &mut Flat, rest: &[u8]) -> Result<usize, AllocError>
        requires ahead { IsAhead X self.old (length rest.now) }
        requires some { 0 < self.old.points_left }
        ensures { TakesList flat.old self.old rest.now result flat.new self.new }
    {
        if !flat.takes_points(self.points_left) {
            return Ok(0);
        }
        let (taken, left) = take_row(flat, self.position, rest, self.points_left)?;
        self.points_left = left;
        self.bytes += taken.used as u64;
        self.position = taken.position;
        Ok(taken.used)
    }

    // Takes members of a multipoint; an x must come next, none of it held. Returns how many bytes
    // they had; 0 if the geometry is no multipoint, if the next member is its first or last, lacks
    // its id, or is out of range, cut or too long, or if `takes_members` of the form is false for
    // all but the last. Takes memory. Not inlined, so that its callers keep their registers.
    #[inline(never)]
    fn take_members(&mut self, flat: &mut Flat, rest: &[u8]) -> Result<usize, AllocError>
        requires { IsAhead X self.old (length rest.now) }
        ensures taken { TakesMany flat.old self.old rest.now result flat.new self.new }
        ensures next { self.new.next ≡ self.old.next }
        ensures lists { self.new.points_left ≡ self.old.points_left }
    {
        let depth = self.head.depth + 1;
        let most = self.members_left;
        if self.head.kind != Kind::MultiPoint
            || !flat.takes_members(depth, self.ids.has_ids(), most)
        {
            return Ok(0);
        }
        let (taken, left) = take_members(flat, &mut self.ids, depth, self.position, rest, most)?;
        self.members_left = left;
        self.bytes += taken.used as u64;
        self.position = taken.position;
        Ok(taken.used)
    }

    // Takes ids, but not the last; an id must come next, none of it held. Returns how many bytes
    // they had; 0 if the next is the last, cut or too long. Takes memory.
    #[inline(never)]
    fn take_ids(&mut self, rest: &[u8]) -> Result<usize, AllocError>
        requires { IsAhead Id self.old (length rest.now) }
        ensures { (rs : List Row) → TakesMany rs self.old rest.now result rs self.new }
    {
        let most = self.members_left.saturating_sub(self.ids.count());
        if most == 0 {
            return Ok(0);
        }
        let used = self.ids.take(rest, most)?;
        self.bytes += used as u64;
        Ok(used)
    }

    // Takes some of the bytes, of which there must be one: many items at once, or else one item or
    // one byte. Returns how many bytes were taken, at least one, and whether the blob ends with
    // them. `flat`, `spans`, an `Err` and memory are as with `feed`.
    #[inline(always)]
    fn take_some<S: SpanNotes>(
        &mut self,
        flat: &mut Flat,
        spans: &mut S,
        rest: &[u8],
    ) -> Result<(usize, bool), Stop>
        requires some { 0 < length rest.now }
        requires ready { IsReady flat.old self.old (length rest.now) }
        ensures some { IfOk result (λ taken. 0 < taken.0) }
        ensures answer { IsAnswer S.holds self.old flat.old spans.old rest.now result self.new flat.new spans.new }
    {
        if self.held.len() > 0 {
            return self.take_item(flat, spans, rest);
        }
        let taken = match self.next {
            NextItem::TypeByte => (self.take_header(spans, rest)?, false),
            NextItem::Id => (self.take_ids(rest)?, false),
            NextItem::X if self.points_left > 0 => {
                let used = self.take_list(flat, rest)?;
                (used, self.points_left == 0 && self.end_points(spans)?)
            }
            NextItem::X => {
                if self.members_left > 0 {
                    let used = self.take_members(flat, rest)?;
                    if used > 0 {
                        return Ok((used, false));
                    }
                }
                self.take_point(flat, spans, rest)?
            }
            _ => (0, false),
        };
        if taken.0 > 0 {
            return Ok(taken);
        }
        self.take_item(flat, spans, rest)
    }

    // Takes bytes as `feed` does, without its shortcut for a blob of a single point.
    #[inline(never)]
    fn feed_items<S: SpanNotes>(
        &mut self,
        flat: &mut Flat,
        spans: &mut S,
        piece: &[u8],
    ) -> Result<(usize, bool), Stop>
        requires { IsReady flat.old self.old (length piece.now) }
        ensures all { TakesAll (length piece.now) result }
        ensures answer { IsAnswer S.holds self.old flat.old spans.old piece.now result self.new flat.new spans.new }
    {
        let mut used = 0;
        while used < piece.len() {
            let (count, ends) = self.take_some(flat, spans, &piece[used..])?;
            used += count;
            if ends {
                return Ok((used, true));
            }
        }
        Ok((used, false))
    }

    /// Takes bytes up to the end of a blob, else all; returns how many, and whether a blob ends
    /// with them. The piece must end at an offset of the stream of at most 2^63. When a blob
    /// begins, `flat` must be empty, so clear it after each, and `spans`, which notes the blob's
    /// spans, must have noted nothing; else both must be as the last call left them. An `Err` says
    /// why the item at `offset`, or the size of a geometry that ends there, is refused, or that
    /// memory is; nothing more can be fed then. Takes memory for what is read.
    #[inline(always)]
    pub fn feed<S: SpanNotes>(
        &mut self,
        flat: &mut Flat,
        spans: &mut S,
        piece: &[u8],
    ) -> Result<(usize, bool), Stop>
        requires room { self.old.start + (count_of self.old + length piece.now) ≤ place_cap }
        requires alive { IsAlive flat.old self.old }
        ensures limits { self.new.limits ≡ self.old.limits }
        ensures all { TakesAll (length piece.now) result }
        ensures fed { FedBy S.holds self.old flat.old spans.old piece.now result self.new flat.new spans.new }
    {
        let used = self.take_root(flat, spans, piece)?;
        if used > 0 {
            return Ok((used, true));
        }
        self.feed_items(flat, spans, piece)
    }
}
