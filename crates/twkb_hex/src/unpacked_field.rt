//! The polyline of a field of the column.
ghost use Rattle.std.specs.Prelude.{◌≡◌, ◌<◌, [], length, OnOk, IfOk, IfErr};
ghost use Rattle.twkb_flat.specs.Taking.{IfRefused};
ghost use Rattle.twkb_engine.specs.Standing.{MadeIn, offset_in};
ghost use Rattle.twkb_hex.specs.Polylines.{IsLineIn, IsNoLineIn, IsUnpackedTo, RefusesBytes, RefusesHex};
ghost use Rattle.twkb_hex.specs.Polylines.{RefusesUnpacking, Unpacks};
ghost use Rattle.twkb_hex.specs.declared.report.HexReason.TheVariants.{Blob};
ghost use Rattle.twkb_flat.specs.declared.stop.Stop.TheVariants.{Refused};

use crate::digits::{decode, digits_in};
use crate::report::HexReason;
use std::alloc::Global;
use twkb_engine::{BlobReason, Engine, NoSpans};
use twkb_flat::{Flat, NodeId, Rows, Stop, Work};
use twkb_polyline::encode_into;
use twkb_tree::{Kind, Limits};

// Memory for the bytes and the rows of the blob of one field.
#[derive(Drop)]
pub(crate) struct BlobRoom {
    alloc: Global,
    bytes: Vec<u8>,
    rows: Rows,
}

impl BlobRoom {
    // Makes a room that holds nothing. Takes no memory.
    pub(crate) fn new(alloc: Global) -> BlobRoom {
        BlobRoom {
            alloc,
            bytes: Vec::new(alloc),
            rows: Rows {
                flat: Flat::new(alloc),
            },
        }
    }
}

// Why a blob is not read, given the reason to refuse its next item.
fn refused_at(engine: &Engine, reason: BlobReason) -> Stop<HexReason>
    ensures { result ≡ Refused (Blob (offset_in engine.now) reason) }
{
    Stop::Refused(HexReason::Blob(engine.bytes(), reason))
}

// Reads the blob that some bytes, at least one, begin with, into rows in place of those held, and
// returns how many bytes it has. Takes memory. An `Err` is the first fault of the bytes, or want of
// memory.
fn read_blob(
    alloc: Global,
    limits: &Limits,
    bytes: &[u8],
    rows: &mut Rows,
) -> Result<usize, Stop<HexReason>>
    requires { 0 < length bytes.now }
    ensures ok { IfOk result (λ used. MadeIn limits.now [] bytes.now used rows.new.flat) }
    ensures err { IfErr result (IfRefused (RefusesBytes limits.now bytes.now)) }
{
    rows.flat.clear();
    let mut engine = Engine::new(alloc, *limits, 0);
    match engine.feed(&mut rows.flat, &mut NoSpans, bytes) {
        Ok((used, true)) => Ok(used),
        Ok((_, false)) => {
            // learnt: where the engine stands, the bytes end inside a blob
            let _learnt = engine.is_between();
            Err(refused_at(&engine, BlobReason::Truncated))
        }
        Err(Stop::Refused(reason)) => Err(refused_at(&engine, reason)),
        Err(Stop::Memory) => Err(Stop::Memory),
    }
}

// Makes the polyline of the linestring that some rows, at least one, are of, in place of what
// `made` holds. Takes memory. An `Err` is that they are of another geometry, or want of memory.
fn put_line(rows: &Rows, made: &mut Vec<u8>) -> Result<(), Stop<HexReason>>
    requires { 0 < length rows.now.flat }
    ensures ok { OnOk result (IsLineIn rows.now.flat made.new.items) }
    ensures err { IfErr result (IfRefused (IsNoLineIn rows.now.flat)) }
{
    let (row, points) = rows.row_at(NodeId(0), &mut Work::new());
    if row.kind != Kind::Linestring {
        return Err(Stop::Refused(HexReason::NoLinestring));
    }
    made.clear();
    encode_into(points, made)?;
    Ok(())
}

// Makes what characters become, in place of what `made` holds. Takes memory. An `Err` is the first
// reason to refuse them, or want of memory.
fn unpack_value(
    limits: &Limits,
    field: &[u8],
    room: &mut BlobRoom,
    made: &mut Vec<u8>,
) -> Result<(), Stop<HexReason>>
    ensures ok { OnOk result (IsUnpackedTo limits.now field.now made.new.items) }
    ensures err { IfErr result (IfRefused (RefusesHex limits.now field.now)) }
{
    decode(digits_in(field), &mut room.bytes)?;
    let used = read_blob(room.alloc, limits, &room.bytes, &mut room.rows)?;
    put_line(&room.rows, made)?;
    if used < room.bytes.len() {
        return Err(Stop::Refused(HexReason::MoreBlobs(used)));
    }
    Ok(())
}

// Makes what a field of the column becomes, in place of what `made` holds. Takes memory. An `Err` is
// the first reason to refuse it, or want of memory.
pub(crate) fn unpack_field(
    limits: &Limits,
    field: &[u8],
    room: &mut BlobRoom,
    made: &mut Vec<u8>,
) -> Result<(), Stop<HexReason>>
    ensures ok { OnOk result (Unpacks limits.now field.now made.new.items) }
    ensures err { IfErr result (IfRefused (RefusesUnpacking limits.now field.now)) }
{
    if field.is_empty() {
        made.clear();
        return Ok(());
    }
    unpack_value(limits, field, room, made)
}
