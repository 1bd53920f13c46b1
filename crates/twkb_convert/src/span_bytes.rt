//! The header of a span in C's layout.
ghost use Rattle.std.specs.Prelude.{◌≡◌, ◌++◌, OnOk};
ghost use Rattle.twkb_convert.specs.Listings.{span_bytes};

use std::alloc::AllocError;
use twkb_blob::Span;
use twkb_grammar::TypeByte;
use twkb_num::Piece;

// Appends a span in C's layout, 32 bytes: its offset, length, points and level, the lowest byte of
// each first, then its type, precision and metadata byte, and 0. Takes memory; an `Err` appends
// nothing.
pub(crate) fn put_span(span: &Span, bytes: &mut Vec<u8>) -> Result<(), AllocError>
    ensures appended { OnOk result (bytes.new.items ≡ bytes.old.items ++ span_bytes span.now) }
{
    // at precision 0 the type byte is the number of the type
    let kind = TypeByte::of(span.kind, 0).byte();
    let last = [kind, span.precision.cast_unsigned(), span.metadata, 0];
    let mut piece = Piece::<32>::new();
    piece.push_all(&span.offset.to_le_bytes());
    piece.push_all(&span.length.to_le_bytes());
    piece.push_all(&span.points.to_le_bytes());
    piece.push_all(&span.level.to_le_bytes());
    piece.push_all(&last);
    bytes.extend_from_slice(piece.as_slice())
}
