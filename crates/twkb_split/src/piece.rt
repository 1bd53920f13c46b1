//! What a record becomes: a record of the rest, and the blob of its field of the column.
ghost use Rattle.std.specs.Prelude.{◌≡◌, [], OnOk, IfErr};
ghost use Rattle.csv.specs.Records.{fields_of};
ghost use Rattle.twkb_flat.specs.Taking.{IfRefused};
ghost use Rattle.twkb_io.specs.Bytes.{bytes_of};
ghost use Rattle.twkb_split.specs.Pieces.{Packs, RefusesField, RefusesRow, polyline_of};
ghost use Rattle.twkb_split.specs.Sending.{PieceMade};

use crate::causes::RecordReason;
use crate::packing::Packing;
use csv::ByteRecord;
use std::alloc::Global;
use twkb_column::ColumnReason;
use twkb_flat::Stop;
use twkb_io::Bytes;
use twkb_records::{LineRoom, append_row, field_at, is_among, is_missing, pack_line};

// The text of a record of the rest, and the blob after it.
#[derive(Drop)]
pub(crate) struct Made {
    pub(crate) text: Vec<u8>,
    pub(crate) blob: Bytes,
}

impl Made {
    // Makes a piece that holds nothing. Takes no memory.
    pub(crate) fn new(alloc: Global) -> Made
        ensures text { result.text.items ≡ [] }
        ensures blob { bytes_of result.blob ≡ [] }
    {
        Made {
            text: Vec::new(alloc),
            blob: Bytes::new(alloc),
        }
    }
}

// The polyline of a field: none, if the field is a word for a missing one.
fn polyline_of<'a>(packing: &Packing<'_>, field: &'a [u8]) -> &'a [u8]
    ensures { result.now ≡ polyline_of packing.now field.now }
{
    if is_among(packing.column.nulls, field) {
        b""
    } else {
        field
    }
}

// Makes the blob of a field of the column, in place of the bytes that `blob` holds. Takes memory. An
// `Err` is the first reason to refuse it, or want of memory.
fn pack_field(
    packing: &Packing<'_>,
    field: &[u8],
    room: &mut LineRoom,
    blob: &mut Bytes,
) -> Result<(), Stop<RecordReason>>
    ensures ok { OnOk result (Packs packing.now field.now (bytes_of blob.new)) }
    ensures err { IfErr result (IfRefused (RefusesField packing.now field.now)) }
{
    let polyline = polyline_of(packing, field);
    if is_missing(polyline) {
        return Err(Stop::Refused(RecordReason::Csv(ColumnReason::MissingValue)));
    }
    let precision = packing.column.precision;
    match pack_line(
        polyline,
        precision,
        packing.style,
        &packing.limits,
        room,
        blob,
    ) {
        Ok(()) => Ok(()),
        Err(Stop::Memory) => Err(Stop::Memory),
        Err(Stop::Refused(why)) => Err(Stop::Refused(RecordReason::Line(why))),
    }
}

// Makes what a record becomes, in place of what `made` holds. Takes memory. An `Err` is the first
// reason to refuse the record, or want of memory.
pub(crate) fn make_piece(
    packing: &Packing<'_>,
    place: usize,
    width: usize,
    row: &ByteRecord,
    room: &mut LineRoom,
    made: &mut Made,
) -> Result<(), Stop<RecordReason>>
    ensures ok { OnOk result (PieceMade packing.now place width (fields_of row.now) made.new.text.items
        (bytes_of made.new.blob)) }
    ensures err { IfErr result (IfRefused (RefusesRow packing.now place width (fields_of row.now))) }
{
    if row.len() != width {
        return Err(Stop::Refused(RecordReason::Csv(ColumnReason::FieldCount)));
    }
    pack_field(packing, field_at(row, place), room, &mut made.blob)?;
    made.text.clear();
    append_row(packing.column.delimiter, row, place, b"", &mut made.text)?;
    Ok(())
}
