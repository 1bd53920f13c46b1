//! The digits of a field of the column.
ghost use Rattle.std.specs.Prelude.{◌≡◌, ◌≤◌, ◌↔◌, ◌++◌, length, IsTrue, OnOk, IfErr};
ghost use Rattle.twkb_tree.specs.declared.limits.TheConstants.{POINTS_CAP};
ghost use Rattle.twkb_tree.specs.Tree.{IsPrecision};
ghost use Rattle.twkb_polyline.specs.Polyline.{DecodesTo};
ghost use Rattle.twkb_polyline.specs.Fault.{IsTextFault};
ghost use Rattle.twkb_grammar.specs.Written.{canonical_blob};
ghost use Rattle.twkb_writer.specs.Bytes.{one_line};
ghost use Rattle.twkb_io.specs.Bytes.{bytes_of};
ghost use Rattle.twkb_csv.specs.Named as named;
ghost use Rattle.twkb_hex.specs.Fields as fields;
ghost use Rattle.twkb_hex.specs.Fields.{Packs, RefusesPacking, RefusesValue, hex_text, IsPackedTo};
ghost use Rattle.twkb_flat.specs.Taking.{IfRefused};

use crate::packing::Packing;
use crate::report::HexReason;
use std::alloc::{AllocError, Global};
use twkb_flat::{Stop, Work};
use twkb_io::Bytes;
use twkb_points::{PointList, Pt};
use twkb_polyline::{PolyFault, decode_into};
use twkb_tree::Limits;
use twkb_writer::{Piece, Style, write_line};

// The points of a polyline.
#[derive(Clone, Copy)]
struct Decoded<'a> {
    points: &'a [Pt],
}

impl PointList for Decoded<'_> {
    ghost points = { λ list. list.points.now };

    fn count(&self) -> usize {
        self.points.len()
    }

    fn point(&self, at: usize) -> Pt {
        self.points[at]
    }
}

// Memory for the points and the blob of one field.
#[derive(Drop)]
pub(crate) struct FieldRoom {
    alloc: Global,
    points: Vec<Pt>,
    piece: Piece,
    blob: Bytes,
}

impl FieldRoom {
    // Makes a room that holds nothing. Takes no memory.
    pub(crate) fn new(alloc: Global) -> FieldRoom {
        FieldRoom {
            alloc,
            points: Vec::new(alloc),
            piece: Piece::new(),
            blob: Bytes::new(alloc),
        }
    }
}

// Whether a field is one of these words.
fn is_among(words: &[&[u8]], field: &[u8]) -> bool
    ensures { result ≡ named.is_among words.now field.now }
{
    for word in words {
        if field == *word {
            return true;
        }
    }
    false
}

// Whether a field is a word that other programs write for a missing value.
fn is_missing(field: &[u8]) -> bool
    ensures { result ≡ named.is_missing field.now }
{
    field == b"NULL".as_slice()
        || field == b"\\N".as_slice()
        || field == b"NA".as_slice()
        || field == b"NaN".as_slice()
        || field == b"NaT".as_slice()
        || field == b"NONE".as_slice()
        || field == b"[NULL]".as_slice()
}

// Whether a field stands for a missing value: it is empty, or a word for one.
fn stays_empty(packing: &Packing<'_>, field: &[u8]) -> bool
    ensures { result ≡ fields.stays_empty packing.now field.now }
{
    field.is_empty() || is_among(packing.column.nulls, field)
}

// Whether blobs may have this precision.
fn has_precision(packing: &Packing<'_>) -> bool
    ensures { IsTrue result ↔ IsPrecision packing.now.column.precision }
{
    packing.column.precision >= -8 && packing.column.precision <= 7
}

// Decodes a polyline in place of the points held. Takes memory.
fn decode(field: &[u8], limits: &Limits, points: &mut Vec<Pt>) -> Result<(), Stop<HexReason>>
    ensures ok { OnOk result (DecodesTo field.now limits.now.points points.new.items) }
    ensures few { OnOk result (length points.new.items ≤ POINTS_CAP) }
    ensures err { IfErr result (IfRefused (fields.RefusesPolyline field.now limits.now.points)) }
{
    let _sound = limits.nest();
    points.clear();
    match decode_into(field, limits.points(), points) {
        Ok(()) => Ok(()),
        Err(PolyFault::Memory) => Err(Stop::Memory),
        Err(PolyFault::At { offset, reason }) => {
            Err(Stop::Refused(HexReason::Polyline(offset, reason)))
        }
    }
}

// Makes the canonical blob of the linestring of these points, at most 2^24, in place of the one
// held. Takes memory.
fn make_blob(
    packing: &Packing<'_>,
    points: &[Pt],
    piece: &mut Piece,
    blob: &mut Bytes,
) -> Result<(), AllocError>
    requires few { length points.now ≤ POINTS_CAP }
    ensures { OnOk result (IsPrecision packing.now.column.precision → bytes_of blob.new
        ≡ canonical_blob packing.now.style (one_line packing.now.column.precision points.now)) }
{
    blob.clear();
    write_line(
        packing.column.precision,
        &Decoded { points },
        packing.style,
        piece,
        blob,
        &mut Work::new(),
    )
}

// Makes the digits of some bytes in place of what `made` holds, after `\x` unless they are bare.
// Takes memory.
fn make_digits(
    alloc: Global,
    is_bare: bool,
    blob: &[u8],
    made: &mut Vec<u8>,
) -> Result<(), AllocError>
    ensures { OnOk result (made.new.items ≡ hex_text is_bare blob.now) }
{
    made.clear();
    if !is_bare {
        made.extend_from_slice(b"\\x")?;
    }
    let digits = hex::encode(alloc, blob)?;
    made.extend_from_slice(digits.as_bytes())
}

// Makes what a value becomes, in place of what `made` holds. Takes memory. An `Err` is the first
// reason to refuse it, or want of memory.
fn pack_value(
    packing: &Packing<'_>,
    limits: &Limits,
    field: &[u8],
    room: &mut FieldRoom,
    made: &mut Vec<u8>,
) -> Result<(), Stop<HexReason>>
    ensures ok { OnOk result (IsPackedTo packing.now limits.now field.now made.new.items) }
    ensures err { IfErr result (IfRefused (RefusesValue packing.now limits.now field.now)) }
{
    if is_missing(field) {
        return Err(Stop::Refused(HexReason::MissingValue));
    }
    if !has_precision(packing) {
        return Err(Stop::Refused(HexReason::BadPrecision));
    }
    decode(field, limits, &mut room.points)?;
    make_blob(packing, &room.points, &mut room.piece, &mut room.blob)?;
    make_digits(room.alloc, packing.is_bare, room.blob.as_slice(), made)?;
    Ok(())
}

// Makes what a field of the column becomes, in place of what `made` holds. Takes memory. An `Err` is
// the first reason to refuse it, or want of memory.
pub(crate) fn pack_field(
    packing: &Packing<'_>,
    limits: &Limits,
    field: &[u8],
    room: &mut FieldRoom,
    made: &mut Vec<u8>,
) -> Result<(), Stop<HexReason>>
    ensures ok { OnOk result (Packs packing.now limits.now field.now made.new.items) }
    ensures err { IfErr result (IfRefused (RefusesPacking packing.now limits.now field.now)) }
{
    if stays_empty(packing, field) {
        made.clear();
        return Ok(());
    }
    pack_value(packing, limits, field, room, made)
}
