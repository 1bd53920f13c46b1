//! The positions of points, and lists of them.
ghost use Rattle.std.specs.Prelude.{◌≡◌, ◌≤◌, ◌+◌, ◌++◌, ◌∷◌, [], pos, length, IsTrue, OnOk};
ghost use Rattle.twkb_tree.specs.Tree.{IsPrecision};
ghost use Rattle.twkb_geojson.specs.Value.{text_of, position, positions};
ghost use Rattle.twkb_geojson.specs.Text.{after_commas, Grows};
ghost use Rattle.twkb_geojson.specs.Coordinate.{IsNear};

use crate::coordinate::{push_coordinate, ten_to};
use crate::near::push_near;
use crate::piece::{flush, make_room};
use std::alloc::AllocError;
use twkb_num::Piece;
use twkb_points::Pt;

// The room that a position needs in a piece, with a comma before it.
const POSITION_ROOM: usize = 80;

/// Appends the positions of points as an array (RFC 7946, section 3.1.1; without blanks). Takes
/// memory for the text alone; after an `Err` a prefix of the array may be appended.
pub fn put_positions(precision: i8, points: &[Pt], text: &mut Vec<u8>) -> Result<(), AllocError>
    requires known { IsPrecision precision }
    ensures appended { OnOk result (text.new.items ≡ text.old.items ++ text_of (positions precision points.now)) }
    ensures grown { Grows text.old.items text.new.items }
{
    match precision {
        5 => put_array(5, points, text),
        6 => put_array(6, points, text),
        7 => put_array(7, points, text),
        _ => put_array(precision, points, text),
    }
}

// Appends the positions of points as `put_positions` does. Inlined for the most usual precisions:
// a division by a known power of ten is quicker.
#[inline(always)]
fn put_array(precision: i8, points: &[Pt], text: &mut Vec<u8>) -> Result<(), AllocError>
    requires known { IsPrecision precision }
    ensures appended { OnOk result (text.new.items ≡ text.old.items ++ text_of (positions precision points.now)) }
    ensures grown { Grows text.old.items text.new.items }
{
    let [first, others @ ..] = points else {
        text.extend_from_slice(b"[]")?;
        return Ok(());
    };
    let mut piece = Piece::<256>::new();
    piece.push(b'[');
    push_any(precision, *first, &mut piece);
    put_others(precision, others, &mut piece, text)?;
    make_room(1, &mut piece, text)?;
    piece.push(b']');
    flush(&mut piece, text)?;
    Ok(())
}

// Appends the positions of points, each after a comma, to the text, the last of them into the
// piece. After an `Err` some of them may be appended.
#[inline(always)]
fn put_others(
    precision: i8,
    points: &[Pt],
    piece: &mut Piece<256>,
    text: &mut Vec<u8>,
) -> Result<(), AllocError>
    requires known { IsPrecision precision }
    ensures appended { OnOk result (text.new.items ++ piece.new
        ≡ (text.old.items ++ piece.old) ++ after_commas (position precision) points.now) }
    ensures grown { Grows text.old.items text.new.items }
{
    for point in points {
        put_next(precision, *point, piece, text)?;
    }
    Ok(())
}

// Appends a comma and the position of a point to the piece, whose characters are moved to the text
// first if it has too little room. After an `Err` the text is as it was or with those characters.
#[inline(always)]
fn put_next(
    precision: i8,
    point: Pt,
    piece: &mut Piece<256>,
    text: &mut Vec<u8>,
) -> Result<(), AllocError>
    requires known { IsPrecision precision }
    ensures appended { OnOk result (text.new.items ++ piece.new
        ≡ (text.old.items ++ piece.old) ++ 44 ∷ text_of (position precision point)) }
    ensures grown { Grows text.old.items text.new.items }
{
    make_room(POSITION_ROOM, piece, text)?;
    piece.push(b',');
    push_any(precision, point, piece);
    Ok(())
}

// Appends the position of a point: at most 63 characters. The piece must have room for 79.
#[inline(always)]
fn push_any(precision: i8, point: Pt, piece: &mut Piece<256>)
    requires known { IsPrecision precision }
    requires room { length piece.old + 79 ≤ 256 }
    ensures appended { piece.new ≡ piece.old ++ text_of (position precision point) }
    ensures most { length piece.new ≤ length piece.old + 63 }
{
    if precision < 0 {
        push_position(precision, point, piece);
    } else if are_near(precision as u32, point) {
        push_near_position(precision as u32, point, piece);
    } else {
        push_position(precision, point, piece);
    }
}

// Whether the whole parts of both coordinates of a point with so many places are below 1,000.
#[inline(always)]
fn are_near(places: u32, point: Pt) -> bool
    requires few { places ≤ 7 }
    ensures { IsTrue result → IsNear places point }
{
    let most = u64::from(ten_to(places)) * 1000;
    point.x().unsigned_abs().max(point.y().unsigned_abs()) < most
}

// Appends the position of a point whose coordinates have whole parts below 1,000: at most 29
// characters. The piece must have room for 40.
#[inline(always)]
fn push_near_position(places: u32, point: Pt, piece: &mut Piece<256>)
    requires few { places ≤ 7 }
    requires near { IsNear places point }
    requires room { length piece.old + 40 ≤ 256 }
    ensures appended { piece.new ≡ piece.old ++ text_of (position (pos places) point) }
    ensures most { length piece.new ≤ length piece.old + 29 }
{
    piece.push(b'[');
    push_near(places, point.x(), piece);
    piece.push(b',');
    push_near(places, point.y(), piece);
    piece.push(b']');
}

// Appends the position of a point: at most 63 characters. The piece must have room for 79. Out of
// line: few points need it.
#[inline(never)]
pub(crate) fn push_position(precision: i8, point: Pt, piece: &mut Piece<256>)
    requires known { IsPrecision precision }
    requires room { length piece.old + 79 ≤ 256 }
    ensures appended { piece.new ≡ piece.old ++ text_of (position precision point) }
    ensures most { length piece.new ≤ length piece.old + 63 }
{
    piece.push(b'[');
    push_coordinate(precision, point.x(), piece);
    piece.push(b',');
    push_coordinate(precision, point.y(), piece);
    piece.push(b']');
}
