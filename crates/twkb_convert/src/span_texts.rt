//! The texts that are made of the headers of a stream's blobs: lines, or headers in C's layout.
ghost use Rattle.std.specs.Prelude.{◌≡◌, ◌++◌, List, OnOk, flat_map, ℕ};
ghost use Rattle.twkb_grammar.specs.declared.span.Span.{Span};

use crate::blob_text::{BlobText, make_room};
use crate::report::Cause;
use crate::span_bytes::put_span;
use crate::span_line::put_line;
use std::alloc::{AllocError, Global};
use std::io::Read;
use std::marker::PhantomData;
use twkb_blob::{Span, Spans, StreamReader};

// A form of a header.
pub(crate) trait SpanForm {
    // What is written for a span.
    ghost written: { Span → List ℕ };

    // Appends a span in this form. Takes memory; an `Err` appends nothing.
    fn put(span: &Span, text: &mut Vec<u8>) -> Result<(), AllocError>
        ensures appended { OnOk result (text.new.items ≡ text.old.items ++ written span.now) };
}

// The line that `show` prints.
pub(crate) struct Line;

impl SpanForm for Line {
    ghost use Rattle.twkb_convert.specs.Listings.{span_line};

    ghost written = { span_line };

    #[inline(always)]
    fn put(span: &Span, text: &mut Vec<u8>) -> Result<(), AllocError> {
        put_line(span, text)
    }
}

// The header in C's layout.
pub(crate) struct CLayout;

impl SpanForm for CLayout {
    ghost use Rattle.twkb_convert.specs.Listings.{span_bytes};

    ghost written = { span_bytes };

    #[inline(always)]
    fn put(span: &Span, text: &mut Vec<u8>) -> Result<(), AllocError> {
        put_span(span, text)
    }
}

// Appends spans in a form, in order. Takes memory; after an `Err` those appended so far stay.
fn put_all<F: SpanForm>(spans: &[Span], text: &mut Vec<u8>) -> Result<(), AllocError>
    ensures appended { OnOk result (text.new.items ≡ text.old.items ++ flat_map F.written spans.now) }
{
    for span in spans {
        F::put(span, text)?;
    }
    Ok(())
}

// The headers of a stream in a form, made from the spans of each blob, which replace those held.
#[derive(Drop)]
pub(crate) struct SpanTexts<F: SpanForm> {
    spans: Spans,
    form: PhantomData<F>,
}

impl<F: SpanForm> SpanTexts<F> {
    // Makes room for the spans of blobs, which grows as blobs need it. Takes no memory.
    pub(crate) fn new(alloc: Global) -> SpanTexts<F> {
        SpanTexts {
            spans: Spans::new(alloc),
            form: PhantomData,
        }
    }
}

impl<F: SpanForm> BlobText for SpanTexts<F> {
    ghost use Rattle.std.specs.Prelude.{flat_map};
    ghost use Rattle.twkb_convert.specs.Listings.{spans_layout};

    ghost layout = { spans_layout (flat_map F.written) };

    fn first_line() -> &'static [u8] {
        b""
    }

    fn read_next<R: Read>(
        &mut self,
        blobs: &mut StreamReader<'_, '_, R>,
        text: &mut Vec<u8>,
    ) -> Result<bool, Cause> {
        if !blobs.next_spans(&mut self.spans)? {
            return Ok(false);
        }
        make_room(text)?;
        put_all::<F>(self.spans.as_slice(), text)?;
        Ok(true)
    }
}
