//! Encoding: from points to text.
ghost use Rattle.std.specs.Prelude.{◌≡◌, ◌≤◌, ◌+◌, [], ◌∷◌, ℕ, List, ◌++◌, length, IfOk, OnOk, OnErr};
ghost use Rattle.twkb_points.specs.Steps.{last_of};
ghost use Rattle.twkb_polyline.specs.Polyline.{polyline, polyline_from, points_of};

use crate::piece::flush;
use crate::spelled_numbers::{push_four, push_two};
use std::alloc::{AllocError, Global};
use twkb_num::{Piece, zigzag};
use twkb_points::{Cursor, Pt};

/// Encodes points as a polyline, in a new vector (Encoded Polyline Algorithm Format). Takes memory
/// for the text alone.
pub fn encode(alloc: Global, points: &[Pt]) -> Result<Vec<u8>, AllocError>
    ensures { IfOk result (λ text. text.items ≡ polyline points.now) }
{
    let mut text = Vec::new(alloc);
    encode_into(points, &mut text)?;
    Ok(text)
}

/// Appends the polyline of some points to a text (Encoded Polyline Algorithm Format). Takes memory
/// for the text alone; after an `Err` the text is as it was. Inlined, since a call for each row adds 2
/// in 100 to the instructions of rows of few points.
#[inline(always)]
pub fn encode_into(points: &[Pt], text: &mut Vec<u8>) -> Result<(), AllocError>
    ensures appended { OnOk result (text.new.items ≡ text.old.items ++ polyline points.now) }
    ensures same { OnErr result (text.new.items ≡ text.old.items) }
{
    let held = text.len();
    let result = put_points(points, text);
    if result.is_err() {
        text.truncate(held);
    }
    result
}

/// Appends the polyline of one point, at most 26 characters, to a piece, which must have room for
/// 32 (Encoded Polyline Algorithm Format). Takes no memory.
#[inline(always)]
pub fn encode_point(point: Pt, piece: &mut Piece<128>)
    requires room { length piece.old + 32 ≤ 128 }
    ensures appended { piece.new ≡ piece.old ++ polyline (point ∷ []) }
    ensures most { length piece.new ≤ length piece.old + 26 }
{
    let mut cursor = Cursor::origin();
    push_point(&mut cursor, point, piece);
}

// Appends the polyline of some points to a text, or a prefix of it if memory is refused. Takes
// memory for the text. It takes two points at a time, whose four numbers fill a vector.
#[inline(always)]
fn put_points(points: &[Pt], text: &mut Vec<u8>) -> Result<(), AllocError>
    ensures appended { OnOk result (text.new.items ≡ text.old.items ++ polyline points.now) }
    ensures grown { (more : List ℕ) × (text.new.items ≡ text.old.items ++ more) }
{
    let mut cursor = Cursor::origin();
    let (pairs, rest) = points.as_chunks::<2>();
    // without a pair no piece is made
    if !pairs.is_empty() {
        put_pairs(pairs, &mut cursor, text)?;
    }
    for point in rest {
        put_point(&mut cursor, *point, text)?;
    }
    Ok(())
}

// Appends the characters of pairs of points to a text, each point as its step from the one before
// it, the first from the cursor, and moves the cursor to the last point. After an `Err` a prefix
// may be appended, and nothing is known of the cursor. Takes memory.
#[inline(always)]
fn put_pairs(pairs: &[[Pt; 2]], cursor: &mut Cursor, text: &mut Vec<u8>) -> Result<(), AllocError>
    ensures appended { OnOk result (text.new.items ≡ text.old.items ++ polyline_from cursor.old (points_of pairs.now)) }
    ensures moved { OnOk result (cursor.new ≡ last_of cursor.old (points_of pairs.now)) }
    ensures grown { (more : List ℕ) × (text.new.items ≡ text.old.items ++ more) }
{
    let mut moved = *cursor;
    let mut piece = Piece::<128>::new();
    for pair in pairs {
        push_pair(&mut moved, pair, &mut piece, text)?;
    }
    *cursor = moved;
    flush(&mut piece, text)
}

// Appends the characters of two points to the piece, the first as its step from the cursor and the
// second as its step from the first, and moves the cursor to the second. If the piece has too
// little room, its characters are first moved to the text; if memory for that is refused, the two
// points are not appended, and the cursor moves nevertheless.
#[inline(always)]
fn push_pair(
    cursor: &mut Cursor,
    pair: &[Pt; 2],
    piece: &mut Piece<128>,
    text: &mut Vec<u8>,
) -> Result<(), AllocError>
    ensures appended { OnOk result (text.new.items ++ piece.new ≡ text.old.items ++ piece.old
        ++ polyline_from cursor.old pair.now) }
    ensures moved { cursor.new ≡ last_of cursor.old pair.now }
    ensures grown { (more : List ℕ) × (text.new.items ≡ text.old.items ++ more) }
{
    let [first, second] = *pair;
    let (first_dx, first_dy) = cursor.delta(first);
    let (second_dx, second_dy) = cursor.delta(second);
    push_four(
        zigzag(first_dy),
        zigzag(first_dx),
        zigzag(second_dy),
        zigzag(second_dx),
        piece,
        text,
    )
}

// Appends the characters of a point to a text, as its step from the cursor, and moves the cursor to
// the point. If memory is refused, the text stays as it was, and the cursor moves nevertheless.
#[inline(always)]
fn put_point(cursor: &mut Cursor, point: Pt, text: &mut Vec<u8>) -> Result<(), AllocError>
    ensures appended { OnOk result (text.new.items ≡ text.old.items ++ polyline_from cursor.old (point ∷ [])) }
    ensures moved { cursor.new ≡ point }
    ensures same { OnErr result (text.new.items ≡ text.old.items) }
{
    let mut characters = Piece::<128>::new();
    push_point(cursor, point, &mut characters);
    flush(&mut characters, text)
}

// Appends the characters of a point to the piece, at most 26, as its step from the cursor, and
// moves the cursor to the point. The piece must have room for 32.
#[inline(always)]
fn push_point(cursor: &mut Cursor, point: Pt, piece: &mut Piece<128>)
    requires room { length piece.old + 32 ≤ 128 }
    ensures appended { piece.new ≡ piece.old ++ polyline_from cursor.old (point ∷ []) }
    ensures most { length piece.new ≤ length piece.old + 26 }
    ensures moved { cursor.new ≡ point }
{
    let (dx, dy) = cursor.delta(point);
    push_two(zigzag(dy), zigzag(dx), piece);
}
