//! The items of a header: type byte, metadata byte, extended byte, size and box. Each is taken by
//! its number, and by `width`, how many bytes that has; without `width` it is one byte, and the
//! number must be below 256. It must be the item that comes next, and end at an offset of the
//! stream of at most 2^63. `flat` and `spans` are as with `feed`. After an `Err` the engine can
//! take nothing more.
ghost use Rattle.std.specs.Prelude.{◌≡◌, ◌+◌, ◌≤◌, ◌<◌, ◌/◌, ◌%◌, ℕ, List, [], None, true, IfOk, OnOk};
ghost use Rattle.twkb_tree.specs.Rows.{Row};
ghost use Rattle.twkb_grammar.specs.Roles as role;
ghost use Rattle.twkb_grammar.specs.Fault.{announces_point as announces};
ghost use Rattle.twkb_grammar.specs.Machine.{kind_number, kind_at};
ghost use Rattle.twkb_num.specs.Spelling.{unzigzag_of};
ghost use Rattle.twkb_points.specs.Point.{origin as origin_of};
ghost use Rattle.twkb_grammar.specs.Noting.{Notes, note_header, note_metadata};
ghost use Rattle.twkb_body.specs.Outline.{OnMetadata, begins};
ghost use Rattle.twkb_body.specs.Growing.{Admits};
ghost use Rattle.twkb_body.specs.Header.{head_of, kind_of};
ghost use Rattle.twkb_engine.specs.declared.next_item.NextItem.TheVariants as next;

use crate::blob_reason::BlobReason;
use crate::engine::Engine;
use crate::next_item::NextItem;
use crate::span_notes::SpanNotes;
use crate::stop::Stop;
use std::alloc::AllocError;
use twkb_flat::Flat;
use twkb_grammar::{Metadata, TypeByte};
use twkb_points::Pt;
use twkb_tree::Kind;

// Numbers of a box after the first.
const BOX_REST: u8 = 3;

impl Engine {
    ghost use Rattle.twkb_engine.specs.State.{IsHere, outline_in, sums_of, size_roles, box_roles};
    ghost use Rattle.twkb_engine.specs.Collections.{frames_of};
    ghost use Rattle.twkb_engine.specs.Caps.{place_cap};
    ghost use Rattle.twkb_engine.specs.Fits.{IsHeaderItem, are_shut, is_typed};
    ghost use Rattle.twkb_engine.specs.Taking.{TakesItem, GoesOn, SameBut, Stays, past_parts, header_row, NotesGo};
    ghost use Rattle.twkb_engine.specs.Standing.{IsAlive, ComesNext};

    // Begins a geometry at its type byte, which must come next: keeps kind and precision, puts the
    // position at the origin, and notes that a span begins. It does not count the byte, nor move to
    // the next item. The span takes memory.
    #[inline(always)]
    pub(crate) fn begin_geometry<S: SpanNotes>(
        &mut self,
        spans: &mut S,
        byte: TypeByte,
    ) -> Result<(), AllocError>
        requires { self.old.next ≡ next.TypeByte }
        ensures typed { is_typed self.new.head.kind ≡ true }
        ensures step { OnMetadata (kind_of self.new.head.kind) self.new.head.precision ≡ OnMetadata
            (kind_at (byte % 16)) (unzigzag_of (byte / 16)) }
        ensures noted { OnOk result
            (NotesGo S.holds (note_header (self.old.start + self.old.bytes) self.old.points byte)
            self.old spans.old spans.new) }
        ensures position { self.new.position ≡ origin_of }
        ensures same { SameBut self.old self.new }
    {
        self.head.kind = byte.kind();
        self.head.precision = byte.precision();
        self.position = Pt::origin();
        spans.begin(self.offset(), self.points, byte)
    }

    // Keeps the metadata byte, in `head` and in the notes of spans, and the geometry's depth and
    // id, which the open collections give. Sets `head.size` to `None`, and `head.from` to the
    // number of the blob's bytes so far. Takes no memory.
    #[inline(always)]
    pub(crate) fn set_metadata<S: SpanNotes>(&mut self, spans: &mut S, metadata: Metadata)
        ensures head { head_of self.new.head ≡ record {
          precision = self.old.head.precision;
          meta = metadata;
          size = None;
          from = self.old.bytes;
        } }
        ensures placed { IsHere self.new }
        ensures kind { self.new.head.kind ≡ self.old.head.kind }
        ensures position { self.new.position ≡ self.old.position }
        ensures noted { NotesGo S.holds (note_metadata metadata) self.old spans.old spans.new }
        ensures told { (w : Notes) → S.holds spans.old w → S.holds spans.new (note_metadata metadata w) }
        ensures same { SameBut self.old self.new }
    {
        spans.set_metadata(metadata.byte());
        self.head.metadata = metadata.byte();
        self.head.size = None;
        self.head.from = self.bytes;
        self.head.depth = self.collections.len() as u32;
        self.head.id = self.collections.id();
    }

    // Whether a header with this kind and metadata byte is that of a point with a body, which
    // announces one point.
    #[inline(always)]
    pub(crate) fn announces_point(&self, kind: Kind, metadata: Metadata) -> bool
        ensures { result ≡ announces (kind_number (kind_of kind)) metadata }
    {
        kind == Kind::Point && !metadata.is_empty()
    }

    // Takes a type byte, and begins its geometry; the metadata byte comes next. Returns false, as
    // no blob ends with a type byte. Refused if it names no type. The span takes memory.
    #[inline(always)]
    pub(crate) fn type_byte<S: SpanNotes>(
        &mut self,
        spans: &mut S,
        number: u64,
    ) -> Result<bool, Stop>
        requires byte { number < 256 }
        requires next { self.old.next ≡ next.TypeByte }
        requires room { self.old.start + self.old.bytes < place_cap }
        ensures { (rs : List Row) → TakesItem S.holds role.Header number 1 self.old rs spans.old result self.new rs
            spans.new }
    {
        let byte = TypeByte::from_number(number);
        if !byte.names_type() {
            return Err(Stop::Refused(BlobReason::BadType));
        }
        self.begin_geometry(spans, byte)?;
        self.bytes += 1;
        self.next = NextItem::MetadataByte;
        Ok(false)
    }

    // Takes a metadata byte, counts a point if it announces one, and goes to the first optional
    // part that it announces, or past the header as `begin_body` does. Returns whether the blob
    // ends with it. Refused if it announces a point too many, or if the size of a geometry that
    // ends here is not exact. The row of a geometry without a body takes memory.
    #[inline(always)]
    pub(crate) fn metadata_byte<S: SpanNotes>(
        &mut self,
        flat: &mut Flat,
        spans: &mut S,
        number: u64,
    ) -> Result<bool, Stop>
        requires byte { number < 256 }
        requires comes { ComesNext next.MetadataByte flat.old self.old number 1 }
        ensures { TakesItem S.holds (role.Metadata (kind_number (kind_of self.old.head.kind))) number 1 self.old
            flat.old spans.old result self.new flat.new spans.new }
    {
        let metadata = Metadata::from_number(number);
        let points = u64::from(self.announces_point(self.head.kind, metadata));
        if points > u64::from(self.limits.points()) - self.points {
            return Err(Stop::Refused(BlobReason::TooManyPoints));
        }
        self.points += points;
        self.bytes += 1;
        self.set_metadata(spans, metadata);
        if metadata.has_extended() {
            self.next = NextItem::ExtendedByte;
            return Ok(false);
        }
        self.after_extended(flat, spans, metadata)
    }

    // Takes an extended dimensions byte, moves `head.from` past it, and goes on as `after_extended`
    // does. Returns whether the blob ends with it. Refused if it announces Z or M, or if the size
    // of a geometry that ends here is not exact. The row of a geometry without a body takes memory.
    #[inline(always)]
    pub(crate) fn extended_byte<S: SpanNotes>(
        &mut self,
        flat: &mut Flat,
        spans: &mut S,
        number: u64,
    ) -> Result<bool, Stop>
        requires byte { number < 256 }
        requires comes { ComesNext next.ExtendedByte flat.old self.old number 1 }
        ensures { TakesItem S.holds role.Extended number 1 self.old flat.old spans.old result self.new flat.new
            spans.new }
    {
        if number % 4 != 0 {
            return Err(Stop::Refused(BlobReason::ExtraDimensions));
        }
        self.bytes += 1;
        self.head.from = self.bytes;
        self.after_extended(flat, spans, Metadata::from_byte(self.head.metadata))
    }

    // Takes a size, which counts the bytes after it, and goes on as `after_size` does. Returns
    // whether the blob ends with it. Refused if the size of a geometry that ends here, maybe this
    // one, is not exact. The row of a geometry without a body takes memory.
    #[inline(always)]
    pub(crate) fn size<S: SpanNotes>(
        &mut self,
        flat: &mut Flat,
        spans: &mut S,
        number: u64,
        width: u64,
    ) -> Result<bool, Stop>
        requires { ComesNext next.Size flat.old self.old number width }
        ensures { TakesItem S.holds role.Size number width self.old flat.old spans.old result self.new flat.new
            spans.new }
    {
        self.bytes += width;
        self.head.size = Some(number);
        self.head.from = self.bytes;
        self.after_size(flat, spans, Metadata::from_byte(self.head.metadata))
    }

    // Takes a number of a box, whose value is not used, with `left` more after it, and after the
    // last one goes past the header as `begin_body` does. Returns whether the blob ends with it.
    // Refused if the size of a geometry that ends here is not exact. The row of a geometry without
    // a body takes memory.
    #[inline(always)]
    pub(crate) fn box_number<S: SpanNotes>(
        &mut self,
        flat: &mut Flat,
        spans: &mut S,
        left: u8,
        width: u64,
    ) -> Result<bool, Stop>
        requires next { self.old.next ≡ next.BoxNumber left }
        requires room { self.old.start + (self.old.bytes + width) ≤ place_cap }
        requires alive { IsAlive flat.old self.old }
        ensures { (number : ℕ) → TakesItem S.holds role.Box number width self.old flat.old spans.old result self.new
            flat.new spans.new }
    {
        self.bytes += width;
        if left > 0 {
            self.next = NextItem::BoxNumber { left: left - 1 };
            return Ok(false);
        }
        self.begin_body(flat, spans)
    }

    // Goes past the place of the extended dimensions byte: to the size, if `metadata`, which must
    // be that of `head`, announces one, or else as `after_size` does. `next` must be an item of a
    // header after the type byte, and the form must admit the row of a geometry without a body.
    // Returns whether the blob ends here. Refused if the size of a geometry that ends here is not
    // exact. The row of a geometry without a body takes memory.
    #[inline(always)]
    fn after_extended<S: SpanNotes>(
        &mut self,
        flat: &mut Flat,
        spans: &mut S,
        metadata: Metadata,
    ) -> Result<bool, Stop>
        requires same { metadata ≡ self.old.head.metadata }
        requires header { IsHeaderItem self.old.next }
        requires may { Admits (header_row self.old (size_roles self.old.head.metadata)) flat.old }
        ensures { GoesOn S.holds (past_parts self.old (size_roles self.old.head.metadata))
            (header_row self.old (size_roles self.old.head.metadata)) self.old flat.old spans.old
            result self.new flat.new spans.new }
    {
        if metadata.has_size() {
            self.next = NextItem::Size;
            return Ok(false);
        }
        self.after_size(flat, spans, metadata)
    }

    // Goes past the place of the size: to the box, if `metadata`, which must be that of `head`,
    // announces one, or else past the header as `begin_body` does. `next` must be an item of a
    // header after the type byte, and the form must admit the row of a geometry without a body.
    // Returns whether the blob ends here. Refused if the size of a geometry that ends here is not
    // exact. The row of a geometry without a body takes memory.
    #[inline(always)]
    fn after_size<S: SpanNotes>(
        &mut self,
        flat: &mut Flat,
        spans: &mut S,
        metadata: Metadata,
    ) -> Result<bool, Stop>
        requires same { metadata ≡ self.old.head.metadata }
        requires header { IsHeaderItem self.old.next }
        requires may { Admits (header_row self.old (box_roles self.old.head.metadata)) flat.old }
        ensures { GoesOn S.holds (past_parts self.old (box_roles self.old.head.metadata))
            (header_row self.old (box_roles self.old.head.metadata)) self.old flat.old spans.old
            result self.new flat.new spans.new }
    {
        if metadata.has_box() {
            self.next = NextItem::BoxNumber { left: BOX_REST };
            return Ok(false);
        }
        self.begin_body(flat, spans)
    }

    // Goes past the header: to the body, or to the count of members. A geometry without a body
    // ends, as `end_empty` does it; the form must admit its row. `next` must be an item of a header
    // after the type byte. Returns whether the blob ends here. Refused if the size of a geometry
    // that ends here is not exact. The row of a geometry without a body takes memory.
    #[inline(always)]
    fn begin_body<S: SpanNotes>(&mut self, flat: &mut Flat, spans: &mut S) -> Result<bool, Stop>
        requires header { IsHeaderItem self.old.next }
        requires may { Admits (header_row self.old []) flat.old }
        ensures { GoesOn S.holds (past_parts self.old []) (header_row self.old []) self.old flat.old spans.old
            result self.new flat.new spans.new }
    {
        if Metadata::from_byte(self.head.metadata).is_empty() {
            return self.end_empty(flat, spans);
        }
        self.go_to_body();
        Ok(false)
    }

    // Makes the item after the header, the first of the body or the count of members, the one that
    // comes next. The kind must not be `Ring`, and no point, ring or member may be left.
    #[inline(always)]
    #[tactic(auto, using(crate::proofs::Parts::headers))]
    pub(crate) fn go_to_body(&mut self)
        requires typed { is_typed self.old.head.kind ≡ true }
        requires shut { are_shut self.old.points_left self.old.rings_left self.old.members_left ≡ true }
        ensures step { outline_in self.new ≡ (
          frames_of self.old.collections,
          begins (kind_of self.old.head.kind) (head_of self.old.head),
        ) }
        ensures head { self.new.head ≡ self.old.head }
        ensures collections { self.new.collections ≡ self.old.collections }
        ensures sums { sums_of self.new ≡ sums_of self.old }
        ensures stays { Stays self.old self.new }
    {
        self.next = NextItem::after_header(self.head.kind);
    }
}
