//! One row of a table as a line of text.
ghost use Rattle.std.specs.Prelude.{◌≡◌, ◌≤◌, ◌+◌, [], ◌∷◌, ◌++◌, OnOk, decimal, length};
ghost use Rattle.std.specs.Fmt.{signed_decimal};
ghost use Rattle.twkb_tree.specs.Kind.{word_of};
ghost use Rattle.twkb_flat.specs.Rows.{row_with};
ghost use Rattle.twkb_table.specs.Record.{optional};
ghost use Rattle.twkb_table.specs.Text.{row_lines, Grows};

use crate::kind_word::push_kind;
use itoa::Buffer;
use std::alloc::AllocError;
use twkb_flat::Row;
use twkb_num::Piece;
use twkb_points::Pt;
use twkb_polyline::{encode_into, encode_point};

// Appends the line of a row with its points, ended by LF. Takes memory; if it is refused, a prefix
// of the line may be appended. The fields before the points are gathered first and appended
// together, with one test for memory; so is the complete line of a row of one point.
pub(crate) fn put_row(row: &Row, points: &[Pt], text: &mut Vec<u8>) -> Result<(), AllocError>
    ensures appended { OnOk result (text.new.items ≡ text.old.items ++ row_lines (row_with row.now points.now ∷ [])) }
    ensures grown { Grows text.old.items text.new.items }
{
    let mut line = Piece::<128>::new();
    push_head(row, &mut line);
    if let [point] = points {
        encode_point(*point, &mut line);
        line.push(b'\n');
        return text.extend_from_slice(line.as_slice());
    }
    text.extend_from_slice(line.as_slice())?;
    encode_into(points, text)?;
    text.extend_from_slice(b"\n")
}

// Writes the depth, the kind, the id and the precision of a row, each followed by a comma, into a
// piece, which must be empty: at most 79 bytes.
#[inline(always)]
fn push_head(row: &Row, head: &mut Piece<128>)
    requires empty { head.old ≡ [] }
    ensures gathered { head.new ≡ ((decimal row.now.depth ++ 44 ∷ (word_of row.now.kind ++ 44 ∷ []))
        ++ optional row.now.id) ++ 44 ∷ (optional row.now.precision ++ 44 ∷ []) }
    ensures short { length head.new ≤ 79 }
{
    push_number(i64::from(row.depth), head);
    push_kind(row.kind, b',', head);
    push_id(row.id, head);
    head.push(b',');
    push_precision(row.precision, head);
    head.push(b',');
}

// Appends the canonical decimal of a number to a piece, which must have room for 20 bytes. Most
// numbers have one digit, and pushing a byte is cheaper than pushing a slice.
#[inline(always)]
fn push_number(number: i64, head: &mut Piece<128>)
    requires room { length head.old + 20 ≤ 128 }
    ensures pushed { head.new ≡ head.old ++ signed_decimal number }
    ensures short { length head.new ≤ length head.old + 20 }
{
    let mut buffer = Buffer::new();
    match buffer.format(number).as_bytes() {
        [digit] => head.push(*digit),
        digits => head.push_all(digits),
    }
}

// Appends the canonical decimal of an id, if there is one, to a piece, which must have room for 20
// bytes.
#[inline(always)]
fn push_id(id: Option<i64>, head: &mut Piece<128>)
    requires room { length head.old + 20 ≤ 128 }
    ensures pushed { head.new ≡ head.old ++ optional id }
    ensures short { length head.new ≤ length head.old + 20 }
{
    if let Some(id) = id {
        push_number(id, head);
    }
}

// Appends the canonical decimal of a precision, if there is one, to a piece, which must have room
// for 20 bytes.
#[inline(always)]
fn push_precision(precision: Option<i8>, head: &mut Piece<128>)
    requires room { length head.old + 20 ≤ 128 }
    ensures pushed { head.new ≡ head.old ++ optional precision }
    ensures short { length head.new ≤ length head.old + 20 }
{
    if let Some(precision) = precision {
        push_number(i64::from(precision), head);
    }
}
