//! The next linestring of a stream, and the text of its record.
ghost use Rattle.std.specs.Prelude.{◌≡◌, ◌∷◌, [], IfSome, None, OnOk};
ghost use Rattle.csv.specs.Writing.{row_text};
ghost use Rattle.twkb_polyline.specs.Polyline.{polyline};
ghost use Rattle.twkb_tree.specs.Tree.{Tree};
ghost use Rattle.twkb_tree.specs.Rows.{own_row};
ghost use Rattle.twkb_flat.specs.Rows.{row_with};
ghost use Rattle.twkb_blob.specs.StreamReaders.{reader_in};
ghost use Rattle.twkb_convert.specs.Listed.{IsBetween};
ghost use Rattle.twkb_rest.specs.Written.{written_with};
ghost use Rattle.twkb_rest.specs.Columns.{Refuses};
ghost use Rattle.twkb_rest.specs.Lines.{ReadsLine, Takes};

use crate::fault::LineReason;
use crate::field_text::end_record;
use std::alloc::AllocError;
use std::io::Read;
use twkb_blob::StreamReader;
use twkb_convert::Cause;
use twkb_flat::{NodeId, Row, Work};
use twkb_points::Pt;
use twkb_polyline::encode_into;
use twkb_tree::Kind;

// What a stream has next.
#[derive(Clone, Copy)]
pub(crate) enum Next {
    // A linestring, whose record was made.
    Line,
    // Its end.
    End,
    // A blob that can't be in the column.
    Refused(LineReason),
}

// The precision of the first linestring, if one was taken.
#[derive(Clone, Copy)]
pub(crate) struct Lines {
    pub(crate) first: Option<i8>,
}

// The bytes that a text has room for at first.
const FIRST_ROOM: usize = 128;

// Makes the text of the record of a linestring with these points, in place of what a text holds.
// Takes memory; after an `Err` nothing is known of the text.
#[inline(always)]
fn put_line(points: &[Pt], delimiter: u8, text: &mut Vec<u8>) -> Result<(), AllocError>
    ensures { OnOk result (text.new.items ≡ row_text (written_with delimiter) (polyline points.now ∷ [])) }
{
    text.clear();
    if text.capacity() < FIRST_ROOM {
        text.reserve(FIRST_ROOM)?;
    }
    encode_into(points, text)?;
    end_record(delimiter, text)
}

impl Lines {
    // Takes the geometry that a root is the row of, and keeps the precision of a first linestring;
    // or returns the reason for which it can't be in the column, and changes nothing.
    #[inline(always)]
    pub(crate) fn judge(&mut self, row: &Row) -> Option<LineReason>
        ensures takes { result ≡ None → (g : Tree) → own_row None 0 g ≡ row_with row.now (own_row None 0 g).points
            → Takes self.old.first g self.new.first }
        ensures refuses { IfSome result (λ why. (g : Tree)
            → own_row None 0 g ≡ row_with row.now (own_row None 0 g).points
            → Refuses self.old.first g why) }
    {
        if row.kind != Kind::Linestring {
            return Some(LineReason::NoLinestring);
        }
        if self.first.is_some() && self.first != row.precision {
            return Some(LineReason::AnotherPrecision);
        }
        self.first = row.precision;
        None
    }

    // Reads the next blob and, if it can be in the column, makes the text of its record in place of
    // what `text` holds. The calls that may come before, and what an `Err` says, are as with the
    // listing of any stream. Takes memory.
    pub(crate) fn read_next<R: Read>(
        &mut self,
        delimiter: u8,
        blobs: &mut StreamReader<'_, '_, R>,
        text: &mut Vec<u8>,
    ) -> Result<Next, Cause>
        requires between { IsBetween (reader_in blobs.old) }
        ensures reads { ReadsLine delimiter self.old.first self.new.first (reader_in blobs.old) (reader_in blobs.new)
            text.new.items result }
    {
        if !blobs.next()? {
            return Ok(Next::End);
        }
        let (row, points) = blobs.rows().row_at(NodeId(0), &mut Work::new());
        if let Some(reason) = self.judge(&row) {
            return Ok(Next::Refused(reason));
        }
        put_line(points, delimiter, text)?;
        Ok(Next::Line)
    }
}
