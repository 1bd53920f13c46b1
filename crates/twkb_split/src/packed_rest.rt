//! Packing a column of a CSV into a stream, and the rest of the CSV beside it.
ghost use Rattle.std.specs.Prelude.{◌≡◌, ℕ, List, Option, [], IfOk, IfErr};
ghost use Rattle.twkb_io.specs.Bytes.{bytes_of};
ghost use Rattle.twkb_io.specs.Taps.{device_of};
ghost use Rattle.twkb_io.specs.declared.output.Output.{Output};
ghost use Rattle.twkb_records.specs.Records.{HasGiven};
ghost use Rattle.twkb_split.specs.Results.{AreFlushedButForDevices, PackedRest, StoppedRest, packing_of};
ghost use Rattle.twkb_split.specs.Sending.{IsFresh, NextPiece, Sends, StandsAt};

use crate::causes::cause_at;
use crate::header::read_header;
use crate::last_flush::finish;
use crate::packing::Packing;
use crate::piece::{Made, make_piece};
use crate::put::{put, put_piece};
use csv::{ByteRecord, Reader};
use std::alloc::Global;
use std::io::{Read, Write};
use std::mem::swap;
use twkb_column::{Cause, Column, ColumnCause, ColumnFault, Limits, Report, Style};
use twkb_io::{Output, Tap};
use twkb_records::{LineRoom, new_reader, read_next};
use twkb_table::RECORD_CAP;

/// Packs a column of a CSV into a stream in a style, and writes the rest of the CSV: the canonical
/// blob of the linestring that each record after the header names, and, to `rest`, the header as it
/// is and each other record with its field of the column empty (records: RFC 4180, with the
/// delimiter of `column`; polylines: Encoded Polyline Algorithm Format; blobs: TWKB; which
/// linestring a record names: profile). Each record of the rest is written just before its blob. A
/// byte order mark before the header is left out, each record ends in LF, and a field has quotes only
/// if it needs them. Each record has a blob of its own: the column of ids is not looked at. The
/// stream, the refusals and their places are those of `pack_column` without ids. A record that is
/// refused stops it, and the record before it is not written either, unless it is the header.
/// Returns how many blobs and bytes of the stream were written, and with an `Err` why it stopped.
/// Both writers are flushed last, the rest first, each unless it failed or more than 2^62 bytes would
/// be written to it. Takes memory for the reader of `csv`, two records and two blobs.
pub fn pack_rest<R: Read, W: Write, V: Write>(
    alloc: Global,
    reader: &mut Tap<R>,
    blobs: &mut Tap<W>,
    rest: &mut Tap<V>,
    limits: Limits,
    style: Style,
    column: Column<'_>,
) -> Result<Report, ColumnFault>
    ensures ok { IfOk result (λ report. PackedRest (packing_of style limits column.entry) R.remaining W.contents
        V.contents reader.old blobs.old rest.old report reader.new blobs.new rest.new) }
    ensures err { IfErr result (λ fault. StoppedRest (packing_of style limits column.entry) R.remaining W.contents
        V.contents reader.old blobs.old rest.old fault reader.new blobs.new rest.new) }
    ensures flushed { AreFlushedButForDevices result blobs.new rest.new }
{
    let packing = Packing {
        column,
        style,
        limits,
    };
    let failures = reader.failures();
    let mut stream = Output::new(blobs);
    let mut records = Output::new(rest);
    let mut pieces = 0;
    let sending = send_all(
        alloc,
        &packing,
        reader,
        &mut stream,
        &mut records,
        &mut pieces,
    );
    let has_read_failed = reader.failures() != failures;
    finish(&mut stream, &mut records, pieces, sending, has_read_failed)
}

// The records after the header: the last one read, the piece that was made last, and the one that
// waits to be sent.
#[derive(Drop)]
struct Rows {
    last: ByteRecord,
    made: Made,
    waiting: Made,
    room: LineRoom,
}

// Reads the record with this number, and makes the piece that it becomes; false if there is none.
// What waits stays. Takes memory. An `Err` is why no piece was made.
fn next_piece<R: Read>(
    packing: &Packing<'_>,
    place: usize,
    width: usize,
    number: u64,
    csv: &mut Reader<&mut Tap<R>>,
    rows: &mut Rows,
) -> Result<bool, ColumnCause>
    ensures next { NextPiece packing.now place width number R.remaining csv.old result rows.new.made.text.items
        (bytes_of rows.new.made.blob) csv.new }
    ensures waits { rows.new.waiting ≡ rows.old.waiting }
{
    let Ok(found) = read_next(csv, &mut rows.last) else {
        return Err(ColumnCause::Pack(Cause::ReadDevice));
    };
    if !found {
        return Ok(false);
    }
    if number >= RECORD_CAP {
        return Err(ColumnCause::Pack(Cause::TooManyRecords));
    }
    match make_piece(
        packing,
        place,
        width,
        &rows.last,
        &mut rows.room,
        &mut rows.made,
    ) {
        Ok(()) => Ok(true),
        Err(stop) => Err(cause_at(number, stop)),
    }
}

// Sends what the records after the header become, each when the one after it was taken or the end
// was reached, and counts all pieces in `done`. An `Err` is the cause for which it stopped. Takes
// memory.
fn send_rows<R: Read, W: Write, V: Write>(
    packing: &Packing<'_>,
    place: usize,
    width: usize,
    csv: &mut Reader<&mut Tap<R>>,
    rows: &mut Rows,
    blobs: &mut Output<'_, W>,
    rest: &mut Output<'_, V>,
    done: &mut u64,
) -> Result<(), ColumnCause>
    ensures sends { (told : Option (List ℕ)) (first : Output W) (rest_first : Output V)
        → StandsAt packing.now place width R.remaining W.contents V.contents told csv.old first blobs.old rest_first
        rest.old 2 done.old rows.old.waiting.text.items (bytes_of rows.old.waiting.blob)
        → Sends packing.now W.contents V.contents told first blobs.new rest_first rest.new done.new result }
{
    for number in 2..u64::MAX {
        let found = next_piece(packing, place, width, number, csv, rows)?;
        put_piece(&rows.waiting, blobs, rest)?;
        *done = number - 1;
        if !found {
            return Ok(());
        }
        swap(&mut rows.waiting, &mut rows.made);
    }
    Err(ColumnCause::Pack(Cause::TooManyRecords))
}

// Sends what the records of a CSV become, and counts in `done`, which must be 0, the pieces that were
// sent whole, the first of which is the header. The outputs must be unused, and the reader must have
// given nothing. An `Err` is the cause for which it stopped; a growth refused to `csv` is
// `ReadDevice` here, which `finish` corrects. Takes memory as `pack_rest` does.
fn send_csv<R: Read, W: Write, V: Write>(
    alloc: Global,
    packing: &Packing<'_>,
    csv: &mut Reader<&mut Tap<R>>,
    blobs: &mut Output<'_, W>,
    rest: &mut Output<'_, V>,
    done: &mut u64,
) -> Result<(), ColumnCause>
    requires none { done.old ≡ 0 }
    requires fresh { IsFresh blobs.old }
    requires rest_fresh { IsFresh rest.old }
    ensures sends { (told : Option (List ℕ)) → HasGiven packing.now.column.delimiter R.remaining told [] csv.old
        → Sends packing.now W.contents V.contents told blobs.old blobs.new rest.old rest.new done.new result }
{
    let mut header = ByteRecord::new(alloc);
    let mut made = Made::new(alloc);
    let column = &packing.column;
    let place = read_header(
        column.name,
        column.delimiter,
        csv,
        &mut header,
        &mut made.text,
    )?;
    let width = header.len();
    put(made.text.as_slice(), rest)?;
    *done = 1;
    let mut rows = Rows {
        last: header,
        made,
        waiting: Made::new(alloc),
        room: LineRoom::new(alloc),
    };
    send_rows(packing, place, width, csv, &mut rows, blobs, rest, done)
}

// Sends what the records of a CSV become, as `send_csv` does, from a tap that has read nothing.
fn send_all<R: Read, W: Write, V: Write>(
    alloc: Global,
    packing: &Packing<'_>,
    reader: &mut Tap<R>,
    blobs: &mut Output<'_, W>,
    rest: &mut Output<'_, V>,
    done: &mut u64,
) -> Result<(), ColumnCause>
    requires none { done.old ≡ 0 }
    requires fresh { IsFresh blobs.old }
    requires rest_fresh { IsFresh rest.old }
    ensures sends { Sends packing.now W.contents V.contents (R.remaining (device_of reader.old)) blobs.old blobs.new
        rest.old rest.new done.new result }
{
    let mut csv = new_reader(alloc, reader, packing.column.delimiter);
    send_csv(alloc, packing, &mut csv, blobs, rest, done)
}
