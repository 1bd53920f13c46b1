//! Items that are complete at the start of bytes: a header, and a blob of a single point. The bytes
//! must end at an offset of the stream of at most 2^63. After an `Err` the engine can take nothing
//! more.
ghost use Rattle.std.specs.Prelude.{◌≡◌, ◌+◌, ◌-◌, ◌<◌, ◌≤◌, [], true, List, Ok, length, take};
ghost use Rattle.std.specs.Prelude.{IfOk, IfSome, OnErr};
ghost use Rattle.twkb_tree.specs.Rows.{Row};
ghost use Rattle.twkb_grammar.specs.Reading.{is_exact};
ghost use Rattle.twkb_body.specs.Front.{WholePoint};
ghost use Rattle.twkb_engine.specs.Taking.{point_span};
ghost use Rattle.twkb_engine.specs.declared.next_item.NextItem.TheVariants as next;

use crate::engine::Engine;
use crate::span_notes::SpanNotes;
use std::alloc::AllocError;
use twkb_body::{SIZED, Whole, front_header, whole_point};
use twkb_flat::Flat;
use twkb_grammar::{Span, TypeByte};
use twkb_tree::Kind;

// Reads the point at the start of the bytes with its header, as `whole_point` does; `None` also if
// the header declares a size that is not exact.
#[inline(always)]
fn exact_point(bytes: &[u8]) -> Option<Whole>
    ensures point { IfSome result (λ front. WholePoint bytes.now front.to front.used front.size) }
    ensures exact { IfSome result (λ front. is_exact front.size (front.used - 3) ≡ true) }
{
    let point = whole_point(bytes)?;
    let Some(size) = point.size else {
        return Some(point);
    };
    if size != (point.used - SIZED) as u64 {
        return None;
    }
    Some(point)
}

// The span of a blob of a single point, which has these bytes, at least two, and begins at this
// offset of a stream.
#[inline(always)]
fn point_span(offset: u64, blob: &[u8]) -> Span
    requires long { 2 ≤ length blob.now }
    ensures { result ≡ point_span offset blob.now }
{
    Span {
        level: 0,
        offset,
        kind: Kind::Point,
        precision: TypeByte::from_byte(blob[0]).precision(),
        metadata: blob[1],
        length: blob.len() as u64,
        points: 1,
    }
}

impl Engine {
    ghost use Rattle.twkb_engine.specs.Caps.{place_cap};
    ghost use Rattle.twkb_engine.specs.Taking.{Stays};
    ghost use Rattle.twkb_engine.specs.Standing.{FedBy, IsAhead, LeadsOn, StopsIn, held_in, count_of};

    // Takes a blob of a single point as `take_root_point` does, if no byte was taken since the
    // engine was made or the last blob ended; else returns 0 and changes nothing. Takes memory.
    #[inline(always)]
    pub(crate) fn take_root<S: SpanNotes>(
        &mut self,
        flat: &mut Flat,
        spans: &mut S,
        piece: &[u8],
    ) -> Result<usize, AllocError>
        requires room { self.old.start + (count_of self.old + length piece.now) ≤ place_cap }
        ensures made { IfOk result (λ used. 0 < used → FedBy S.holds self.old flat.old spans.old
            piece.now (Ok (used, true)) self.new flat.new spans.new) }
        ensures same { result ≡ Ok 0 → (self.new ≡ self.old) × (flat.new ≡ flat.old) × (spans.new ≡ spans.old) }
        ensures memory { OnErr result (StopsIn flat.old self.old piece.now) }
        ensures limits { self.new.limits ≡ self.old.limits }
    {
        if !self.is_between() {
            return Ok(0);
        }
        self.take_root_point(flat, spans, piece)
    }

    // Takes a blob of a single point at the start of the piece: replaces the form's rows by the
    // point's, notes its span, goes to the next blob, and returns how many bytes the blob has; 0,
    // with no change, if `exact_point` gives none or the limits allow no point. No blob may be
    // begun, and `spans` must have noted nothing. Takes memory. Not inlined, so that its callers
    // have more registers.
    #[inline(never)]
    fn take_root_point<S: SpanNotes>(
        &mut self,
        flat: &mut Flat,
        spans: &mut S,
        piece: &[u8],
    ) -> Result<usize, AllocError>
        requires none { self.old.bytes ≡ 0 }
        requires alone { held_in self.old ≡ [] }
        requires room { self.old.start + length piece.now ≤ place_cap }
        ensures made { IfOk result (λ used. 0 < used → FedBy S.holds self.old flat.old spans.old
            piece.now (Ok (used, true)) self.new flat.new spans.new) }
        ensures same { result ≡ Ok 0 → (self.new ≡ self.old) × (flat.new ≡ flat.old) × (spans.new ≡ spans.old) }
        ensures memory { OnErr result (StopsIn flat.old self.old piece.now) }
        ensures limits { self.new.limits ≡ self.old.limits }
    {
        if self.limits.points() == 0 {
            return Ok(0);
        }
        let Some(point) = exact_point(piece) else {
            return Ok(0);
        };
        let span = point_span(self.start, &piece[..point.used]);
        spans.put(span)?;
        flat.begin_point(span.precision, point.to)?;
        self.start += span.length;
        Ok(point.used)
    }

    // Takes the header of a geometry with a body if it is complete at the start of the bytes, and
    // returns how many bytes it has; 0, with no change, if `front_header` gives none, or if it
    // announces a point too many. A type byte must come next, and no byte may be held. A span takes
    // memory.
    #[inline(always)]
    pub(crate) fn take_header<S: SpanNotes>(
        &mut self,
        spans: &mut S,
        rest: &[u8],
    ) -> Result<usize, AllocError>
        requires { IsAhead next.TypeByte self.old (length rest.now) }
        ensures within { IfOk result (λ used. used ≤ length rest.now) }
        ensures led { (rs : List Row) → IfOk result (λ used. LeadsOn S.holds rs self.old spans.old
            (take used rest.now) rs self.new spans.new) }
        ensures memory { (rs : List Row) → OnErr result (StopsIn rs self.old rest.now) }
        ensures same { result ≡ Ok 0 → self.new ≡ self.old }
        ensures stays { Stays self.old self.new }
    {
        let Some(header) = front_header(rest) else {
            return Ok(0);
        };
        let points = u64::from(self.announces_point(header.type_byte.kind(), header.metadata));
        if points > u64::from(self.limits.points()) - self.points {
            return Ok(0);
        }
        self.begin_geometry(spans, header.type_byte)?;
        self.points += points;
        self.set_metadata(spans, header.metadata);
        self.head.size = header.parts.size;
        self.head.from = self.bytes + header.from as u64;
        self.bytes += header.used as u64;
        self.go_to_body();
        Ok(header.used)
    }
}
