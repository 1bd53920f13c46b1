//! Packing a table into a stream.
ghost use Rattle.std.specs.Prelude.{◌≡◌, true, is_err, IfOk, IfErr};
ghost use Rattle.twkb_io.specs.Taps.{bytes_given, device_of};
ghost use Rattle.twkb_grammar.specs.declared.style.Style.TheVariants.{Full};
ghost use Rattle.twkb_convert.specs.Outputs.{IsFlushedButForDevices};
ghost use Rattle.twkb_convert.specs.Packed.{Packed, PackedWith, StoppedPacking};
ghost use Rattle.twkb_convert.specs.Causes.{Drains};
ghost use Rattle.twkb_convert.specs.SentGeometries.{records_with};

use crate::causes::after_reads;
use crate::last_flush::finish;
use crate::report::{Cause, ConvertFault, Report};
use crate::sent_geometries::{Room, Sent, send_table};
use std::alloc::Global;
use std::io::{Read, Write};
use twkb_flat::{Work, reads_fit};
use twkb_io::{Output, Tap};
use twkb_table::TableReader;
use twkb_tree::Limits;
use twkb_writer::Style;

/// Packs a table into a stream of TWKB blobs, each geometry with its size, and with its bounding
/// box if it may have one. This is `pack_styled` in full style.
pub fn pack<R: Read, W: Write>(
    alloc: Global,
    reader: &mut Tap<R>,
    writer: &mut Tap<W>,
    limits: Limits,
) -> Result<Report, ConvertFault>
    ensures ok { IfOk result (λ report. Packed Full limits R.remaining W.contents reader.old
        writer.old report reader.new writer.new) }
    ensures err { IfErr result (λ fault. StoppedPacking Full limits R.remaining W.contents
        reader.old writer.old fault reader.new writer.new) }
    ensures flushed { IsFlushedButForDevices result writer.new }
{
    pack_styled(alloc, reader, writer, limits, Style::Full)
}

/// Packs a table into a stream in a style: reads the records to the reader's end, and writes the
/// canonical blob of each geometry when the row after it was accepted or the table's end was
/// reached (records: RFC 4180; their polylines: Encoded Polyline Algorithm Format; blobs: TWKB; the
/// columns, and which blob is canonical: profile). Returns how many geometries and bytes were
/// written and how many records of the input they took (`taken`), and with an `Err` why it stopped.
/// A record that is refused, as one past the limits is, stops it; the geometry before that record
/// is not written, since the record might have belonged to it. The writer is flushed last, unless
/// it failed or more than 2^62 bytes would be written. Takes memory for the reader of `csv`, one
/// record, one geometry with its sizes, and the points of the next root: up to 8 MiB, or all if the
/// geometry before it is a single point. After the table's end, the reader is read again until it
/// gives no byte, and what it gives is dropped: wrap a reader that may go on after an end, such as
/// a terminal, in `twkb_io::Ending`.
pub fn pack_styled<R: Read, W: Write>(
    alloc: Global,
    reader: &mut Tap<R>,
    writer: &mut Tap<W>,
    limits: Limits,
    style: Style,
) -> Result<Report, ConvertFault>
    ensures ok { IfOk result (λ report. Packed style limits R.remaining W.contents reader.old
        writer.old report reader.new writer.new) }
    ensures err { IfErr result (λ fault. StoppedPacking style limits R.remaining W.contents
        reader.old writer.old fault reader.new writer.new) }
    ensures flushed { IsFlushedButForDevices result writer.new }
{
    let (report, _) = pack_counted(alloc, reader, writer, limits, style)?;
    Ok(report)
}

/// Packs a table as `pack_styled` does, and returns with its report the work of measuring and
/// writing the geometries, as `Work` counts it; an `Err` comes without it.
pub fn pack_counted<R: Read, W: Write>(
    alloc: Global,
    reader: &mut Tap<R>,
    writer: &mut Tap<W>,
    limits: Limits,
    style: Style,
) -> Result<(Report, Work), ConvertFault>
    ensures ok { IfOk result (λ done. PackedWith style limits R.remaining W.contents reader.old
        writer.old done.0 done.1 reader.new writer.new) }
    ensures err { IfErr result (λ fault. StoppedPacking style limits R.remaining W.contents
        reader.old writer.old fault reader.new writer.new) }
    ensures flushed { IsFlushedButForDevices result writer.new }
{
    let failures = reader.failures();
    let mut output = Output::new(writer);
    let mut room = Room::new(alloc);
    let mut sent = Sent {
        geometries: 0,
        rows: 0,
        work: Work::new(),
    };
    let sending = {
        let mut table = TableReader::new(alloc, reader, limits);
        send_table(&mut table, style, &mut room, &mut output, &mut sent)
    };
    let drained = drain(reader, sending);
    let answer = after_reads(drained, reader.failures() != failures);
    let taken = records_taken(&sent);
    let report = finish(&mut output, sent.geometries, taken, answer)?;
    reads_fit(sent.work);
    Ok((report, sent.work))
}

// The number of records of the geometries that were sent, with that of the header; 0 if there are
// none.
fn records_taken(sent: &Sent) -> u64
    ensures { result ≡ records_with sent.now.geometries sent.now.rows }
{
    if sent.geometries == 0 {
        0
    } else {
        sent.rows.saturating_add(1)
    }
}

// The number of bytes that one read asks for.
const PIECE: usize = 64;

// Returns `sending` if it is an error, and reads nothing; else reads a tap to its end, and drops
// the bytes. `ReadDevice` if a read fails; `TooLong` if 2^64 - 1 reads gave bytes and no end. Takes
// no memory.
fn drain<R: Read>(tap: &mut Tap<R>, sending: Result<(), Cause>) -> Result<(), Cause>
    ensures drains { Drains (R.remaining (device_of tap.new)) (bytes_given tap.new) sending result }
    ensures unread { is_err sending ≡ true → tap.new ≡ tap.old }
{
    sending?;
    let mut dropped = [0; PIECE];
    for turn in 0..u64::MAX {
        match tap.read(&mut dropped) {
            Ok(0) => return Ok(()),
            Ok(_) => {}
            Err(_) => return Err(Cause::ReadDevice),
        }
    }
    Err(Cause::TooLong)
}
