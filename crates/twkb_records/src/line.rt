//! The blob of a polyline.
ghost use Rattle.std.specs.Prelude.{◌≡◌, ◌≤◌, ◌↔◌, length, IsTrue, OnOk, IfErr};
ghost use Rattle.twkb_flat.specs.Taking.{IfRefused};
ghost use Rattle.twkb_grammar.specs.Written.{canonical_blob};
ghost use Rattle.twkb_io.specs.Bytes.{bytes_of};
ghost use Rattle.twkb_polyline.specs.Polyline.{DecodesTo};
ghost use Rattle.twkb_tree.specs.Tree.{IsPrecision};
ghost use Rattle.twkb_tree.specs.declared.limits.TheConstants.{POINTS_CAP};
ghost use Rattle.twkb_writer.specs.Bytes.{one_line};
ghost use Rattle.twkb_records.specs.Lines.{IsBlobOf, RefusesLine, RefusesPolyline};

use std::alloc::{AllocError, Global};
use twkb_flat::{Stop, Work};
use twkb_io::Bytes;
use twkb_points::{PointList, Pt};
use twkb_polyline::{PolyFault, PolyReason, decode_into};
use twkb_tree::Limits;
use twkb_writer::{Piece, Style, write_line};

/// Why a polyline has no blob, in the order of the checks (profile).
#[derive(Clone, Copy, Debug, PartialEq, Eq)]
pub enum LineFault {
    /// The precision is not from -8 to 7.
    BadPrecision,
    /// The polyline is refused at this byte of it, counted from 0 (Encoded Polyline Algorithm
    /// Format).
    Polyline(usize, PolyReason),
}

// The points of a polyline.
#[derive(Clone, Copy)]
struct Decoded<'a> {
    points: &'a [Pt],
}

impl PointList for Decoded<'_> {
    ghost points = { λ list. list.points.now };

    fn count(&self) -> usize {
        self.points.len()
    }

    fn point(&self, at: usize) -> Pt {
        self.points[at]
    }
}

/// Memory for the points of one polyline and a part of its blob.
#[derive(Drop)]
pub struct LineRoom {
    points: Vec<Pt>,
    piece: Piece,
}

impl LineRoom {
    /// Makes a room that holds nothing. Takes no memory.
    pub fn new(alloc: Global) -> LineRoom {
        LineRoom {
            points: Vec::new(alloc),
            piece: Piece::new(),
        }
    }
}

// Whether blobs may have this precision.
fn is_precision(precision: i8) -> bool
    ensures { IsTrue result ↔ IsPrecision precision }
{
    precision >= -8 && precision <= 7
}

// Decodes a polyline in place of the points held. Takes memory.
fn decode(polyline: &[u8], limits: &Limits, points: &mut Vec<Pt>) -> Result<(), Stop<LineFault>>
    ensures ok { OnOk result (DecodesTo polyline.now limits.now.points points.new.items) }
    ensures few { OnOk result (length points.new.items ≤ POINTS_CAP) }
    ensures err { IfErr result (IfRefused (RefusesPolyline polyline.now limits.now.points)) }
{
    let _sound = limits.nest();
    points.clear();
    match decode_into(polyline, limits.points(), points) {
        Ok(()) => Ok(()),
        Err(PolyFault::Memory) => Err(Stop::Memory),
        Err(PolyFault::At { offset, reason }) => {
            Err(Stop::Refused(LineFault::Polyline(offset, reason)))
        }
    }
}

// Makes the canonical blob of the linestring of these points, at most 2^24, in place of the one
// held. Takes memory.
fn make_blob(
    precision: i8,
    style: Style,
    points: &[Pt],
    piece: &mut Piece,
    blob: &mut Bytes,
) -> Result<(), AllocError>
    requires few { length points.now ≤ POINTS_CAP }
    ensures { OnOk result (IsPrecision precision → bytes_of blob.new
        ≡ canonical_blob style (one_line precision points.now)) }
{
    blob.clear();
    write_line(
        precision,
        &Decoded { points },
        style,
        piece,
        blob,
        &mut Work::new(),
    )
}

/// Makes the canonical blob of the linestring of a polyline, of at most as many points as the limits
/// allow, in place of the bytes that `blob` holds (blobs: TWKB; polylines: Encoded Polyline
/// Algorithm Format). `precision` is the decimals of both coordinates, -8 to 7. Takes memory for the
/// points and the blob. An `Err` is the first reason to refuse it, or want of memory; nothing is
/// then known of the bytes held.
pub fn pack_line(
    polyline: &[u8],
    precision: i8,
    style: Style,
    limits: &Limits,
    room: &mut LineRoom,
    blob: &mut Bytes,
) -> Result<(), Stop<LineFault>>
    ensures ok { OnOk result (IsBlobOf style precision limits.now polyline.now (bytes_of blob.new)) }
    ensures err { IfErr result (IfRefused (RefusesLine precision limits.now polyline.now)) }
{
    if !is_precision(precision) {
        return Err(Stop::Refused(LineFault::BadPrecision));
    }
    decode(polyline, limits, &mut room.points)?;
    make_blob(precision, style, &room.points, &mut room.piece, blob)?;
    Ok(())
}
