//! Packing a column of a CSV into a stream.
ghost use Rattle.std.specs.Prelude.{◌≡◌, IfOk, IfErr, is_some};
ghost use Rattle.twkb_io.specs.Taps.{device_of};
ghost use Rattle.twkb_convert.specs.Outputs.{IsFlushedButForDevices};
ghost use Rattle.twkb_column.specs.Causes.{fault_after, records_taken, told};
ghost use Rattle.twkb_column.specs.Packing.{IsFlushedButForReads, PackedColumn, StoppedColumn};
ghost use Rattle.twkb_column.specs.Tables.{Drains, EndsReading, PacksTable, stopped_with};

use crate::fault::{ColumnCause, ColumnFault};
use std::alloc::Global;
use std::io::{Read, Write};
use twkb_convert::{Cause, ConvertFault, Limits, Report, Style, Tap, pack_styled};
use twkb_csv::{Column, ColumnReader, Unmarked};

/// Packs a column of a CSV into a stream in a style: reads the records to the reader's end, and
/// writes the canonical blob of the linestring that each record after the header names or, with a
/// column of ids, that of one multilinestring, whose lines they name (records: RFC 4180, with the
/// delimiter of `column`, after a byte order mark if there is one; which table they name: profile).
/// The result is that of `pack_styled` over that table, with the numbers of
/// the CSV's records, and with reasons of its own for what is wrong with the CSV. Takes the memory
/// that `pack_styled` takes for such a table; a byte for each name of the header, one field of the
/// column, and the rows of the records that come in one read of 8192 bytes. After the CSV's end,
/// the reader is read again until it gives no byte, and what it gives is dropped: wrap a reader
/// that may go on after an end, such as a terminal, in `twkb_io::Ending`.
pub fn pack_column<R: Read, W: Write>(
    alloc: Global,
    reader: &mut Tap<R>,
    writer: &mut Tap<W>,
    limits: Limits,
    style: Style,
    column: Column<'_>,
) -> Result<Report, ColumnFault>
    ensures ok { IfOk result (λ report. PackedColumn style limits column.entry R.remaining W.contents
        reader.old writer.old report reader.new writer.new) }
    ensures err { IfErr result (λ fault. StoppedColumn style limits column.entry R.remaining
        W.contents reader.old writer.old fault reader.new writer.new) }
    ensures flushed { IsFlushedButForReads result writer.new }
{
    let failures = reader.failures();
    let packed = {
        let csv = Unmarked::new(&mut *reader);
        let mut table = Tap::new(ColumnReader::new(alloc, csv, column));
        pack_table(alloc, &mut table, writer, limits, style)
    };
    let ended = end_reading(reader, packed);
    tell(&column, ended, reader.failures() != failures)
}

// Packs a table as `pack_styled` does, and states the result by its text.
fn pack_table<R: Read, W: Write>(
    alloc: Global,
    table: &mut Tap<R>,
    writer: &mut Tap<W>,
    limits: Limits,
    style: Style,
) -> Result<Report, ConvertFault>
    ensures packs { PacksTable style limits (R.remaining (device_of table.old)) W.contents writer.old writer.new
        result }
    ensures flushed { IsFlushedButForDevices result writer.new }
{
    pack_styled(alloc, table, writer, limits, style)
}

// The number of bytes that one read asks for.
const PIECE: usize = 64;

// Reads a tap to its end, and drops the bytes. `ReadDevice` if a read fails; `TooLong` if 2^64 - 1
// reads gave bytes and no end. Takes no memory.
fn drain<R: Read>(tap: &mut Tap<R>) -> Result<(), Cause>
    ensures drains { Drains (R.remaining (device_of tap.new)) result }
{
    let mut dropped = [0; PIECE];
    for turn in 0..u64::MAX {
        match tap.read(&mut dropped) {
            Ok(0) => return Ok(()),
            Ok(_) => {}
            Err(_) => return Err(Cause::ReadDevice),
        }
    }
    Err(Cause::TooLong)
}

// Reads a tap to its end if the table was packed, and drops the bytes. Returns the report again,
// or a fault if the end is not reached; a fault stays as it is, and nothing is read. Takes no
// memory.
fn end_reading<R: Read>(
    tap: &mut Tap<R>,
    packed: Result<Report, ConvertFault>,
) -> Result<Report, ConvertFault>
    ensures ends { EndsReading (R.remaining (device_of tap.new)) packed result }
{
    let report = packed?;
    match drain(tap) {
        Ok(()) => Ok(report),
        Err(cause) => Err(stopped(report, cause)),
    }
}

// The fault of a conversion that wrote what the report says, and stopped then for a cause.
fn stopped(report: Report, cause: Cause) -> ConvertFault
    ensures { result ≡ stopped_with report cause }
{
    ConvertFault {
        done: report.geometries,
        sent: report.bytes,
        taken: report.taken,
        cause,
    }
}

// The number of records of the CSV that name so many records of the table.
fn records_taken(has_ids: bool, taken: u64) -> u64
    ensures { result ≡ records_taken has_ids taken }
{
    if has_ids {
        taken.saturating_sub(1)
    } else {
        taken
    }
}

// The fault to report for that of `pack`, given whether a read of the CSV failed.
fn told_fault(has_ids: bool, fault: ConvertFault, has_read_failed: bool) -> ColumnFault
    ensures { result ≡ fault_after has_ids has_read_failed fault }
{
    let cause = match fault.cause {
        Cause::WriteDevice => Cause::WriteDevice,
        _ if has_read_failed => Cause::ReadDevice,
        Cause::ReadDevice => Cause::Memory,
        other => other,
    };
    ColumnFault {
        done: fault.done,
        sent: fault.sent,
        taken: records_taken(has_ids, fault.taken),
        cause: ColumnCause::of(has_ids, cause),
    }
}

// The answer to report for that of `pack`, given whether a read of the CSV failed. A failed read is
// the cause then, unless a write failed; if none failed, what `pack` takes for one is want of memory.
fn tell(
    column: &Column<'_>,
    answer: Result<Report, ConvertFault>,
    has_read_failed: bool,
) -> Result<Report, ColumnFault>
    ensures { result ≡ told (is_some column.now.ids) has_read_failed answer }
{
    let has_ids = column.ids.is_some();
    match answer {
        Ok(report) if has_read_failed => {
            let fault = stopped(report, Cause::ReadDevice);
            Err(told_fault(has_ids, fault, true))
        }
        Ok(report) => Ok(Report {
            taken: records_taken(has_ids, report.taken),
            ..report
        }),
        Err(fault) => Err(told_fault(has_ids, fault, has_read_failed)),
    }
}
