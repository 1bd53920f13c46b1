//! Unpacking a column of a CSV, which stays in it as polylines.
ghost use Rattle.std.specs.Prelude.{◌≡◌, ℕ, List, Option, [], IfOk, IfErr, OnOk};
ghost use Rattle.csv.specs.Records.{fields_of};
ghost use Rattle.twkb_flat.specs.Taking.{IfRefused};
ghost use Rattle.twkb_io.specs.Taps.{device_of};
ghost use Rattle.twkb_hex.specs.Fields.{Unpacked};
ghost use Rattle.twkb_hex.specs.Records.{HasGiven};
ghost use Rattle.twkb_hex.specs.Rows.{RefusesRow};
ghost use Rattle.twkb_hex.specs.Results.{Converted, IsFlushedButForDevices, Sends, StoppedConverting};
ghost use Rattle.twkb_hex.specs.Sending.{IsFresh, NextRow, RowMade, StandsAt};
ghost use Rattle.twkb_io.specs.declared.output.Output.{Output};

use crate::causes::{after_reads, cause_at};
use crate::header::read_header;
use crate::last_flush::finish;
use crate::packing::Unpacking;
use crate::records::{new_reader, read_next};
use crate::report::{HexCause, HexFault, HexReason, HexReport};
use crate::row_text::{append_row, field_at};
use crate::unpacked_field::{BlobRoom, unpack_field};
use csv::{ByteRecord, Reader};
use std::alloc::Global;
use std::io::{Read, Write};
use twkb_flat::Stop;
use twkb_io::{Output, Sink, Tap};
use twkb_tree::Limits;

/// Writes a CSV again with the digits of blobs in a column as polylines: the header as it is, and
/// each other record with its field of the column replaced by the polyline of its blob, which must
/// be that of a linestring (records: RFC 4180, with any delimiter; blobs: TWKB; polylines: Encoded
/// Polyline Algorithm Format; digits: profile). A field is hexadecimal digits, small or capital,
/// after `\x` or without it; one that is empty stays empty. Each field is a blob of its own, so
/// precisions may differ. A byte order mark before the header is left out, each record ends in LF,
/// and a field has quotes only if it needs them. Returns how many records and bytes were written,
/// and with an `Err` why it stopped. A record that is refused stops it after all records before it,
/// as `unpack` writes all geometries before a fault. The writer is flushed last, unless it failed or
/// more than 2^62 bytes would be written. Takes memory for the reader of `csv`, one record and one
/// geometry.
pub fn unpack_hex<R: Read, W: Write>(
    alloc: Global,
    reader: &mut Tap<R>,
    writer: &mut Tap<W>,
    unpacking: &Unpacking<'_>,
    limits: &Limits,
) -> Result<HexReport, HexFault>
    ensures ok { IfOk result (λ report. Converted (Unpacked unpacking.now limits.now) R.remaining W.contents
        reader.old writer.old report reader.new writer.new) }
    ensures err { IfErr result (λ fault. StoppedConverting (Unpacked unpacking.now limits.now) R.remaining
        W.contents reader.old writer.old fault reader.new writer.new) }
    ensures flushed { IsFlushedButForDevices result writer.new }
{
    let failures = reader.failures();
    let mut output = Output::new(writer);
    let mut done = 0;
    let sending = send_all(alloc, unpacking, limits, reader, &mut output, &mut done);
    let answer = after_reads(sending, reader.failures() != failures);
    finish(&mut output, done, answer)
}

// A record after the header: what was read, what its field of the column becomes, and the text that
// was made.
#[derive(Drop)]
struct RowRoom {
    row: ByteRecord,
    field: Vec<u8>,
    text: Vec<u8>,
    blob: BlobRoom,
}

// Makes the text of what a record becomes, in place of what `text` holds, by what its field of the
// column becomes, which is made in place of what `field` holds. Takes memory. An `Err` is the first
// reason to refuse the record, or want of memory.
fn make_row(
    unpacking: &Unpacking<'_>,
    limits: &Limits,
    place: usize,
    width: usize,
    row: &ByteRecord,
    blob: &mut BlobRoom,
    field: &mut Vec<u8>,
    text: &mut Vec<u8>,
) -> Result<(), Stop<HexReason>>
    ensures ok { OnOk result (RowMade (Unpacked unpacking.now limits.now) place width (fields_of row.now)
        text.new.items) }
    ensures err { IfErr result
        (IfRefused (RefusesRow (Unpacked unpacking.now limits.now) place width (fields_of row.now))) }
{
    if row.len() != width {
        return Err(Stop::Refused(HexReason::FieldCount));
    }
    unpack_field(limits, field_at(row, place), blob, field)?;
    text.clear();
    append_row(unpacking.delimiter, row, place, field, text)?;
    Ok(())
}

// Reads the record with this number, and makes the text of what it becomes; false if there is none.
// Takes memory. An `Err` is why no text was made.
fn next_row<R: Read>(
    unpacking: &Unpacking<'_>,
    limits: &Limits,
    place: usize,
    width: usize,
    number: u64,
    csv: &mut Reader<&mut Tap<R>>,
    room: &mut RowRoom,
) -> Result<bool, HexCause>
    ensures next { NextRow (Unpacked unpacking.now limits.now) place width number R.remaining csv.old result
        room.new.text.items csv.new }
{
    if !read_next(csv, &mut room.row)? {
        return Ok(false);
    }
    match make_row(
        unpacking,
        limits,
        place,
        width,
        &room.row,
        &mut room.blob,
        &mut room.field,
        &mut room.text,
    ) {
        Ok(()) => Ok(true),
        Err(stop) => Err(cause_at(number, stop)),
    }
}

// Sends what the records after the header become, each before the next one is read, and counts them
// in `done`. An `Err` is the cause for which it stopped. Takes memory.
fn send_rows<R: Read, W: Write>(
    unpacking: &Unpacking<'_>,
    limits: &Limits,
    place: usize,
    width: usize,
    csv: &mut Reader<&mut Tap<R>>,
    room: &mut RowRoom,
    output: &mut Output<'_, W>,
    done: &mut u64,
) -> Result<(), HexCause>
    ensures sends { (told : Option (List ℕ)) (first : Output W)
        → StandsAt (Unpacked unpacking.now limits.now) place width R.remaining W.contents told csv.old first
        output.old 2 done.old []
        → Sends (Unpacked unpacking.now limits.now) W.contents told first output.new done.new result }
{
    for number in 2..u64::MAX {
        if !next_row(unpacking, limits, place, width, number, csv, room)? {
            return Ok(());
        }
        output.put(room.text.as_slice())?;
        *done = number;
    }
    Err(HexCause::TooLong)
}

// Sends what the records of a CSV become, and counts in `done`, which must be 0, those that were
// sent whole. The output must be unused, and the reader must have given nothing. An `Err` is the
// cause for which it stopped; a growth refused to `csv` is `ReadDevice` here, which `after_reads`
// corrects. Takes memory as `unpack_hex` does.
fn send_csv<R: Read, W: Write>(
    alloc: Global,
    unpacking: &Unpacking<'_>,
    limits: &Limits,
    csv: &mut Reader<&mut Tap<R>>,
    output: &mut Output<'_, W>,
    done: &mut u64,
) -> Result<(), HexCause>
    requires none { done.old ≡ 0 }
    requires fresh { IsFresh output.old }
    ensures sends { (told : Option (List ℕ)) → HasGiven unpacking.now.delimiter R.remaining told [] csv.old
        → Sends (Unpacked unpacking.now limits.now) W.contents told output.old output.new done.new result }
{
    let mut header = ByteRecord::new(alloc);
    let mut text = Vec::new(alloc);
    let place = read_header(
        unpacking.name,
        unpacking.delimiter,
        csv,
        &mut header,
        &mut text,
    )?;
    let width = header.len();
    output.put(text.as_slice())?;
    *done = 1;
    let mut room = RowRoom {
        row: header,
        field: Vec::new(alloc),
        text,
        blob: BlobRoom::new(alloc),
    };
    send_rows(
        unpacking, limits, place, width, csv, &mut room, output, done,
    )
}

// Sends what the records of a CSV become, as `send_csv` does, from a tap that has read nothing.
fn send_all<R: Read, W: Write>(
    alloc: Global,
    unpacking: &Unpacking<'_>,
    limits: &Limits,
    reader: &mut Tap<R>,
    output: &mut Output<'_, W>,
    done: &mut u64,
) -> Result<(), HexCause>
    requires none { done.old ≡ 0 }
    requires fresh { IsFresh output.old }
    ensures sends { Sends (Unpacked unpacking.now limits.now) W.contents (R.remaining (device_of reader.old))
        output.old output.new done.new result }
{
    let mut csv = new_reader(alloc, reader, unpacking.delimiter);
    send_csv(alloc, unpacking, limits, &mut csv, output, done)
}
