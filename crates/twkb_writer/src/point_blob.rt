//! The blob of one point, written without a form and without sizes.
ghost use Rattle.std.specs.Prelude.{◌≡◌, ◌≤◌, ◌<◌, ◌+◌, ◌++◌, length, OnOk, IfErr};
ghost use Rattle.twkb_tree.specs.Tree.{IsPrecision};
ghost use Rattle.twkb_io.specs.Sinks.{TookFront};
ghost use Rattle.twkb_grammar.specs.Written.{canonical_blob};
ghost use Rattle.twkb_writer.specs.MeasuredRows.{Measures};
ghost use Rattle.twkb_writer.specs.Bytes.{one_point, point_frame};

use crate::gatherer::step_to;
use crate::lengths::number_len;
use crate::measured_rows::count_measured;
use crate::piece::Piece;
use twkb_flat::Work;
use twkb_grammar::{Metadata, Style, TypeByte};
use twkb_io::Sink;
use twkb_points::{Cursor, Pt};
use twkb_tree::Kind;

// Appends the metadata byte of a point's blob and, in full style, the size of the body, which must
// be below 128. The piece must have room for two bytes.
#[inline(always)]
fn push_frame(style: Style, size: u64, piece: &mut Piece)
    requires small { size < 128 }
    requires room { length piece.old + 2 ≤ 4096 }
    ensures value { piece.new ≡ piece.old ++ point_frame style size }
    ensures most { length piece.new ≤ length piece.old + 2 }
{
    match style {
        Style::Full => {
            piece.push(Metadata::sized().byte());
            piece.push(size as u8);
        }
        Style::Plain => piece.push(Metadata::plain().byte()),
    }
}

// Replaces the bytes of the piece by the canonical blob of a point, in a style and for a precision
// from -8 to 7.
#[inline(always)]
fn put_point(precision: i8, point: Pt, style: Style, piece: &mut Piece)
    ensures { IsPrecision precision → piece.new ≡ canonical_blob style (one_point precision point) }
{
    let mut cursor = Cursor::origin();
    let (x, y) = step_to(&mut cursor, point);
    piece.clear();
    piece.push(TypeByte::of(Kind::Point, precision).byte());
    push_frame(style, number_len(x) + number_len(y), piece);
    piece.push_two_varints(x, y);
}

/// Writes the canonical blob of a point that is not empty, in a style and for a precision from -8
/// to 7, by one put; after an `Err` the sink got a prefix of it. Counts one point, one node and one
/// entry as measured, and no reads. The bytes go through the piece, whatever it holds. Takes no
/// memory itself.
#[inline(always)]
pub fn write_point<S: Sink>(
    precision: i8,
    point: Pt,
    style: Style,
    piece: &mut Piece,
    sink: &mut S,
    work: &mut Work,
) -> Result<(), S::Fault>
    ensures ok { OnOk result (IsPrecision precision
        → S.took sink.old (canonical_blob style (one_point precision point)) sink.new) }
    ensures err { IfErr result (λ fault. IsPrecision precision
        → TookFront S.refused sink.old (canonical_blob style (one_point precision point)) fault sink.new) }
    ensures work { Measures work.old 1 1 1 work.new }
{
    count_measured(1, 1, 1, work);
    put_point(precision, point, style, piece);
    sink.put(piece.as_slice())
}
