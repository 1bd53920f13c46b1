//! Packing a column of a CSV, which stays in it as digits.
ghost use Rattle.std.specs.Prelude.{◌≡◌, ℕ, List, Option, [], IfOk, IfErr, OnOk};
ghost use Rattle.csv.specs.Records.{fields_of};
ghost use Rattle.twkb_flat.specs.Taking.{IfRefused};
ghost use Rattle.twkb_io.specs.Taps.{device_of};
ghost use Rattle.twkb_hex.specs.Fields.{Packed};
ghost use Rattle.twkb_hex.specs.Records.{HasGiven};
ghost use Rattle.twkb_hex.specs.Rows.{RefusesRow};
ghost use Rattle.twkb_hex.specs.Results.{Converted, IsFlushedButForDevices, Sends, StoppedConverting};
ghost use Rattle.twkb_hex.specs.Sending.{IsFresh, NextRow, RowMade, StandsAt};
ghost use Rattle.twkb_io.specs.declared.output.Output.{Output};

use crate::causes::{after_reads, cause_at};
use crate::header::read_header;
use crate::last_flush::finish;
use crate::packed_field::{FieldRoom, pack_field};
use crate::packing::Packing;
use crate::records::{new_reader, read_next};
use crate::report::{HexCause, HexFault, HexReason, HexReport};
use crate::row_text::{append_row, field_at};
use csv::{ByteRecord, Reader};
use std::alloc::Global;
use std::io::{Read, Write};
use std::mem::swap;
use twkb_flat::Stop;
use twkb_io::{Output, Sink, Tap};
use twkb_tree::Limits;

/// Writes a CSV again with the polylines of a column as hexadecimal digits: the header as it is, and
/// each other record with its field of the column replaced by the small digits of the canonical blob
/// of its linestring, after `\x` unless they are bare (records: RFC 4180, with any delimiter;
/// polylines: Encoded Polyline Algorithm Format; blobs: TWKB; digits: profile). A field that is
/// empty, or one of the words for a missing value, becomes empty. A byte order mark before the
/// header is left out, each record ends in LF, and a field has quotes only if it needs them. Returns
/// how many records and bytes were written, and with an `Err` why it stopped. A record that is
/// refused stops it; then the record before it, if that is not the header, is not written either, as
/// `pack` leaves out the geometry before a refused record. The writer is flushed last, unless it
/// failed or more than 2^62 bytes would be written. Takes memory for the reader of `csv`, two
/// records and one geometry.
pub fn pack_hex<R: Read, W: Write>(
    alloc: Global,
    reader: &mut Tap<R>,
    writer: &mut Tap<W>,
    packing: &Packing<'_>,
    limits: &Limits,
) -> Result<HexReport, HexFault>
    ensures ok { IfOk result (λ report. Converted (Packed packing.now limits.now) R.remaining W.contents
        reader.old writer.old report reader.new writer.new) }
    ensures err { IfErr result (λ fault. StoppedConverting (Packed packing.now limits.now) R.remaining
        W.contents reader.old writer.old fault reader.new writer.new) }
    ensures flushed { IsFlushedButForDevices result writer.new }
{
    let failures = reader.failures();
    let mut output = Output::new(writer);
    let mut done = 0;
    let sending = send_all(alloc, packing, limits, reader, &mut output, &mut done);
    let answer = after_reads(sending, reader.failures() != failures);
    finish(&mut output, done, answer)
}

// The records after the header: the last one read, what its field of the column becomes, the text
// that was made last, and the one that waits to be sent.
#[derive(Drop)]
struct Rows {
    last: ByteRecord,
    field: Vec<u8>,
    made: Vec<u8>,
    waiting: Vec<u8>,
    room: FieldRoom,
}

// Makes the text of what a record becomes, in place of what `text` holds, by what its field of the
// column becomes, which is made in place of what `field` holds. Takes memory. An `Err` is the first
// reason to refuse the record, or want of memory.
fn make_row(
    packing: &Packing<'_>,
    limits: &Limits,
    place: usize,
    width: usize,
    row: &ByteRecord,
    room: &mut FieldRoom,
    field: &mut Vec<u8>,
    text: &mut Vec<u8>,
) -> Result<(), Stop<HexReason>>
    ensures ok { OnOk result (RowMade (Packed packing.now limits.now) place width (fields_of row.now)
        text.new.items) }
    ensures err { IfErr result
        (IfRefused (RefusesRow (Packed packing.now limits.now) place width (fields_of row.now))) }
{
    if row.len() != width {
        return Err(Stop::Refused(HexReason::FieldCount));
    }
    pack_field(packing, limits, field_at(row, place), room, field)?;
    text.clear();
    append_row(packing.column.delimiter, row, place, field, text)?;
    Ok(())
}

// Reads the record with this number, and makes the text of what it becomes; false if there is none.
// What waits stays. Takes memory. An `Err` is why no text was made.
fn next_row<R: Read>(
    packing: &Packing<'_>,
    limits: &Limits,
    place: usize,
    width: usize,
    number: u64,
    csv: &mut Reader<&mut Tap<R>>,
    rows: &mut Rows,
) -> Result<bool, HexCause>
    ensures next { NextRow (Packed packing.now limits.now) place width number R.remaining csv.old result
        rows.new.made.items csv.new }
    ensures waits { rows.new.waiting.items ≡ rows.old.waiting.items }
{
    if !read_next(csv, &mut rows.last)? {
        return Ok(false);
    }
    match make_row(
        packing,
        limits,
        place,
        width,
        &rows.last,
        &mut rows.room,
        &mut rows.field,
        &mut rows.made,
    ) {
        Ok(()) => Ok(true),
        Err(stop) => Err(cause_at(number, stop)),
    }
}

// Sends what the records after the header become, each when the one after it was converted or the
// end was reached, and counts them in `done`. An `Err` is the cause for which it stopped. Takes
// memory.
fn send_rows<R: Read, W: Write>(
    packing: &Packing<'_>,
    limits: &Limits,
    place: usize,
    width: usize,
    csv: &mut Reader<&mut Tap<R>>,
    rows: &mut Rows,
    output: &mut Output<'_, W>,
    done: &mut u64,
) -> Result<(), HexCause>
    ensures sends { (told : Option (List ℕ)) (first : Output W)
        → StandsAt (Packed packing.now limits.now) place width R.remaining W.contents told csv.old first output.old 2
        done.old rows.old.waiting.items
        → Sends (Packed packing.now limits.now) W.contents told first output.new done.new result }
{
    for number in 2..u64::MAX {
        let found = next_row(packing, limits, place, width, number, csv, rows)?;
        output.put(rows.waiting.as_slice())?;
        *done = number - 1;
        if !found {
            return Ok(());
        }
        swap(&mut rows.waiting, &mut rows.made);
    }
    Err(HexCause::TooLong)
}

// Sends what the records of a CSV become, and counts in `done`, which must be 0, those that were
// sent whole. The output must be unused, and the reader must have given nothing. An `Err` is the
// cause for which it stopped; a growth refused to `csv` is `ReadDevice` here, which `after_reads`
// corrects. Takes memory as `pack_hex` does.
fn send_csv<R: Read, W: Write>(
    alloc: Global,
    packing: &Packing<'_>,
    limits: &Limits,
    csv: &mut Reader<&mut Tap<R>>,
    output: &mut Output<'_, W>,
    done: &mut u64,
) -> Result<(), HexCause>
    requires none { done.old ≡ 0 }
    requires fresh { IsFresh output.old }
    ensures sends { (told : Option (List ℕ)) → HasGiven packing.now.column.delimiter R.remaining told [] csv.old
        → Sends (Packed packing.now limits.now) W.contents told output.old output.new done.new result }
{
    let mut header = ByteRecord::new(alloc);
    let mut text = Vec::new(alloc);
    let column = &packing.column;
    let place = read_header(column.name, column.delimiter, csv, &mut header, &mut text)?;
    let width = header.len();
    output.put(text.as_slice())?;
    *done = 1;
    let mut rows = Rows {
        last: header,
        field: Vec::new(alloc),
        made: text,
        waiting: Vec::new(alloc),
        room: FieldRoom::new(alloc),
    };
    send_rows(packing, limits, place, width, csv, &mut rows, output, done)
}

// Sends what the records of a CSV become, as `send_csv` does, from a tap that has read nothing.
fn send_all<R: Read, W: Write>(
    alloc: Global,
    packing: &Packing<'_>,
    limits: &Limits,
    reader: &mut Tap<R>,
    output: &mut Output<'_, W>,
    done: &mut u64,
) -> Result<(), HexCause>
    requires none { done.old ≡ 0 }
    requires fresh { IsFresh output.old }
    ensures sends { Sends (Packed packing.now limits.now) W.contents (R.remaining (device_of reader.old))
        output.old output.new done.new result }
{
    let mut csv = new_reader(alloc, reader, packing.column.delimiter);
    send_csv(alloc, packing, limits, &mut csv, output, done)
}
