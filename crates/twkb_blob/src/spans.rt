//! Geometries with the place and the header of each.
ghost use Rattle.std.specs.Prelude.{◌≡◌, []};
ghost use Rattle.twkb_grammar.specs.Noting.{no_notes, changed_at};
ghost use Rattle.twkb_blob.specs.Places.{measured};

use std::alloc::{AllocError, Global};
use std::marker::Model;
use twkb_engine::SpanNotes;
use twkb_grammar::{Span, TypeByte};
use twkb_tree::Geometry;

/// The spans of a blob, in the order of its headers, and room for those of a further one. A
/// contract sees the list of them.
#[derive(Debug, Drop)]
pub struct Spans {
    pub(crate) notes: OpenSpans,
}

impl Model for Spans {
    ghost use Rattle.std.specs.Prelude.{List};
    ghost use Rattle.twkb_grammar.specs.declared.span.Span.{Span};

    ghost Value = { List Span };

    ghost view = { λ a. a.notes.spans };
}

impl Spans {
    /// Makes a list without spans. Takes no memory.
    pub fn new(alloc: Global) -> Spans
        ensures { result ≡ [] }
    {
        Spans::from_vec(Vec::new(alloc))
    }

    /// Forgets all spans, and keeps their memory for others. Takes no memory.
    pub fn clear(&mut self)
        ensures { self.new ≡ [] }
    {
        self.notes.restart();
    }

    /// Makes a list of the spans in a vector, whose memory it keeps. Takes no memory.
    pub fn from_vec(items: Vec<Span>) -> Spans
        ensures { result ≡ items.items }
    {
        let begun = Vec::new(*items.allocator());
        Spans {
            notes: OpenSpans {
                spans: items,
                begun,
            },
        }
    }

    /// Gives up the list, and returns the vector of its spans. Takes no memory.
    pub fn into_vec(self) -> Vec<Span>
        ensures { result.items ≡ self }
    {
        self.notes.spans
    }

    /// The spans of the list as a slice. Takes no memory.
    pub fn as_slice(&self) -> &[Span]
        ensures { result.now ≡ self.now }
    {
        self.notes.spans.as_slice()
    }
}

/// A geometry, with a span for itself and for each geometry inside it, at any depth.
#[derive(Debug, Drop)]
pub struct Located {
    /// The geometry.
    pub geometry: Geometry,
    /// Where it and the geometries inside it are, and what their headers say.
    pub spans: Spans,
}

// The spans so far, and the places of those whose geometries are begun and not ended, the innermost
// last.
#[derive(Debug, Drop)]
pub(crate) struct OpenSpans {
    // As long as the geometry of a span is open, its `points` is the number of points of the blob
    // before the geometry; once the geometry ends, the number of the geometry's own.
    spans: Vec<Span>,
    begun: Vec<usize>,
}

impl Model for OpenSpans {
    ghost use Rattle.std.specs.Prelude.{reverse};
    ghost use Rattle.twkb_grammar.specs.Noting.{Notes};

    ghost Value = { Notes };

    ghost view = { λ o. record { spans = o.spans.items; begun = reverse o.begun.items } };
}

// Sets the metadata byte of the span at this index; changes nothing if there is no such span.
fn set_metadata(spans: &mut Vec<Span>, index: usize, metadata: u8)
    ensures { spans.new.items ≡ changed_at index (λ s. record s { metadata = metadata }) spans.old.items }
{
    if index < spans.len() {
        spans[index].metadata = metadata;
    }
}

// Sets the length of the span at this index, whose geometry ends at this offset of the stream,
// after this many points of its blob, and turns its `points`, those of the blob before the
// geometry, into the number of the geometry's own. Changes nothing if there is no such span.
fn set_end(spans: &mut Vec<Span>, index: usize, offset: u64, points: u64)
    ensures { spans.new.items ≡ changed_at index (measured offset points) spans.old.items }
{
    if index < spans.len() {
        let span = &mut spans[index];
        span.length = offset.saturating_sub(span.offset);
        span.points = points.saturating_sub(span.points);
    }
}

impl OpenSpans {
    // Forgets the spans and which of them are open, and keeps their memory for others.
    pub(crate) fn restart(&mut self)
        ensures { self.new ≡ no_notes }
    {
        self.spans.clear();
        self.begun.clear();
    }
}

impl SpanNotes for OpenSpans {
    ghost use Rattle.std.specs.Prelude.{◌≡◌};

    ghost holds = { λ o w. o ≡ w };

    // Adds an open span, whose geometry begins at this offset of the stream, after this many points
    // of its blob. After an `Err` a span may be left that is not open.
    #[inline(always)]
    fn begin(&mut self, offset: u64, points: u64, byte: TypeByte) -> Result<(), AllocError> {
        let level = self.begun.len().min(u32::MAX as usize) as u32;
        let place = self.spans.len();
        self.spans.reserve(1)?;
        self.spans.push_reserved(Span {
            level,
            offset,
            kind: byte.kind(),
            precision: byte.precision(),
            metadata: 0,
            length: 0,
            points,
        });
        self.begun.reserve(1)?;
        self.begun.push_reserved(place);
        Ok(())
    }

    // Sets the metadata byte of the innermost open span; changes nothing if none is open.
    #[inline(always)]
    fn set_metadata(&mut self, byte: u8) {
        if let Some(place) = self.begun.last() {
            let place = *place;
            set_metadata(&mut self.spans, place, byte);
        }
    }

    // Closes the innermost open span, and sets its length and the number of its geometry's points;
    // changes nothing if none is open.
    #[inline(always)]
    fn end(&mut self, offset: u64, points: u64) {
        if let Some(place) = self.begun.pop() {
            set_end(&mut self.spans, place, offset, points);
        }
    }

    // Adds a complete span, which is not open. Takes memory.
    #[inline(always)]
    fn put(&mut self, span: Span) -> Result<(), AllocError> {
        self.spans.reserve(1)?;
        self.spans.push_reserved(span);
        Ok(())
    }
}
