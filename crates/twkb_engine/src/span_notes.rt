//! What a reader notes of spans.
ghost use Rattle.std.specs.Prelude.{◌<◌, ◌^◌, ◌∷◌, [], OnOk, length, ⊤};
ghost use Rattle.twkb_grammar.specs.Noting.{Notes, no_notes, note_header, note_metadata, note_end};

use std::alloc::AllocError;
use twkb_grammar::{Span, TypeByte};

/// Notes the spans of geometries, as a reader comes to their headers and their ends.
pub trait SpanNotes {
    // These notes are held; what notes nothing holds any.
    ghost holds: { Self → Notes → Type 0 };

    /// Notes that a geometry begins with this type byte at this offset of the stream, after
    /// `points` points of its blob. Fewer than 2^32 geometries must be open before. Takes memory;
    /// after an `Err` the notes may be incomplete.
    fn begin(&mut self, offset: u64, points: u64, byte: TypeByte) -> Result<(), AllocError>
        ensures { OnOk result ((w : Notes) → length w.begun < 2 ^ 32 → holds self.old w
            → holds self.new (note_header offset points byte w)) };

    /// Notes the metadata byte of the innermost open geometry; nothing if none is open. Takes no
    /// memory.
    fn set_metadata(&mut self, byte: u8)
        ensures { (w : Notes) → holds self.old w → holds self.new (note_metadata byte w) };

    /// Notes that the innermost open geometry ends at this offset of the stream, after `points`
    /// points of its blob; nothing if none is open. Takes no memory.
    fn end(&mut self, offset: u64, points: u64)
        ensures { (w : Notes) → holds self.old w → holds self.new (note_end offset points w) };

    /// Notes the span of a whole blob that has only this one, in place of `begin`, `set_metadata`
    /// and `end`; nothing may have been noted before. Takes memory; after an `Err` the notes may be
    /// incomplete.
    fn put(&mut self, span: Span) -> Result<(), AllocError>
        ensures { OnOk result (holds self.old no_notes → holds self.new (record { spans = span ∷ []; begun = [] })) };
}

/// Notes nothing, and takes no memory.
#[derive(Clone, Copy, Debug)]
pub struct NoSpans;

impl SpanNotes for NoSpans {
    ghost use Rattle.std.specs.Prelude.{⊤};

    ghost holds = { λ nothing w. ⊤ };

    #[inline(always)]
    fn begin(&mut self, _offset: u64, _points: u64, _byte: TypeByte) -> Result<(), AllocError> {
        Ok(())
    }

    #[inline(always)]
    fn set_metadata(&mut self, _byte: u8) {}

    #[inline(always)]
    fn end(&mut self, _offset: u64, _points: u64) {}

    #[inline(always)]
    fn put(&mut self, _span: Span) -> Result<(), AllocError> {
        Ok(())
    }
}
