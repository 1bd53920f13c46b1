//! A stream of linestrings as a column of a CSV: the record of each is sent before the reader is
//! read again.
ghost use Rattle.std.specs.Prelude.{◌≡◌, None, IfOk, IfErr};
ghost use Rattle.twkb_blob.specs.StreamReaders.{reader_in};
ghost use Rattle.twkb_convert.specs.BlobsListed.{IsFresh};
ghost use Rattle.twkb_rest.specs.Lines.{Sends};
ghost use Rattle.twkb_rest.specs.Unpacked.{Finishes, IsFlushed, StoppedColumn, UnpackedColumn};

use crate::fault::{LineReason, UnpackCause, UnpackFault};
use crate::field_text::end_record;
use crate::line::{Lines, Next};
use std::alloc::Global;
use std::io::{Read, Write};
use twkb_blob::{StreamReader, StreamRoom};
use twkb_convert::{Cause, Report};
use twkb_io::{Input, OutFault, Output, Sink, Tap};
use twkb_tree::Limits;

/// Writes a stream of linestrings as a column of a CSV: a record with the column's name, and then
/// one for each blob, its polyline, after the blob was read whole, before the reader is read again
/// (blobs: TWKB; polylines: Encoded Polyline Algorithm Format; records: RFC 4180; LF after each
/// record: profile). A field is quoted if it has the delimiter, a quote, CR or LF; an empty one is
/// `""`. The delimiter should be none of `"`, CR and LF. Returns the number of blobs whose records
/// were all written, the number of bytes written and how many bytes of the input these blobs took
/// (`taken`), and with an `Err` why it stopped. A blob that is refused, that is no linestring, or
/// that has another precision than the first one, stops it after the records of the blobs before.
/// The writer is flushed last, unless it failed or more than 2^62 bytes would be written. Takes
/// memory for one geometry and its record, twice for a record that needs quotes.
pub fn unpack_column<R: Read, W: Write>(
    alloc: Global,
    reader: &mut Tap<R>,
    writer: &mut Tap<W>,
    limits: Limits,
    name: &[u8],
    delimiter: u8,
) -> Result<Report, UnpackFault>
    ensures ok { IfOk result (λ report. UnpackedColumn delimiter name.now limits R.remaining W.contents reader.old
        writer.old report reader.new writer.new) }
    ensures err { IfErr result (λ fault. StoppedColumn delimiter name.now limits R.remaining W.contents reader.old
        writer.old fault reader.new writer.new) }
    ensures flushed { IsFlushed result writer.new }
{
    let mut output = Output::new(writer);
    let mut room = StreamRoom::new(alloc);
    let mut blobs = StreamReader::new(Input::new(reader), limits, &mut room);
    let mut text = Vec::new(alloc);
    let (mut done, mut taken) = (0, 0);
    let sending = send_column(
        name,
        delimiter,
        &mut blobs,
        &mut text,
        &mut output,
        &mut done,
        &mut taken,
    );
    finish(&mut output, done, taken, sending)
}

// Sends the record of the column's name, and then that of each linestring that a reader gives, each
// in one put, made in `text`. Counts in `done` the blobs whose record was sent whole, and in `taken`
// their bytes; both must be 0. The reader and the output must be unused. Returns the reason for
// which a blob can't be in the column, or none at the stream's end. Takes memory as `read_next`
// does.
fn send_column<R: Read, W: Write>(
    name: &[u8],
    delimiter: u8,
    blobs: &mut StreamReader<'_, '_, R>,
    text: &mut Vec<u8>,
    output: &mut Output<'_, W>,
    done: &mut u64,
    taken: &mut u64,
) -> Result<Option<LineReason>, Cause>
    requires fresh { IsFresh (reader_in blobs.old) output.old }
    requires none { done.old ≡ 0 }
    requires nothing { taken.old ≡ 0 }
    ensures sends { Sends delimiter name.now W.contents (reader_in blobs.old) output.old (reader_in blobs.new)
        output.new done.new taken.new result }
{
    text.clear();
    text.extend_from_slice(name)?;
    end_record(delimiter, text)?;
    output.put(text.as_slice())?;
    let mut lines = Lines { first: None };
    loop {
        match lines.read_next(delimiter, blobs, text)? {
            Next::Line => {}
            Next::End => return Ok(None),
            Next::Refused(reason) => return Ok(Some(reason)),
        }
        output.put(text.as_slice())?;
        *done += 1;
        *taken = blobs.offset();
    }
}

// Flushes the output of an unpacked column, unless the output refused a call before, and reports
// the number of blobs, their bytes, and the number of bytes that the writer took. The result is an
// `Err` if the sending stopped, if a blob can't be in the column, or if the flush fails; if more
// than one, the `Err` has the cause of the flush. Takes no memory.
fn finish<W: Write>(
    output: &mut Output<'_, W>,
    blobs: u64,
    taken: u64,
    sending: Result<Option<LineReason>, Cause>,
) -> Result<Report, UnpackFault>
    ensures finishes { Finishes W.contents output.old blobs taken sending output.new result }
{
    let answer = match output.flush() {
        Ok(()) | Err(OutFault::Spent) => sending,
        Err(fault) => Err(Cause::from(fault)),
    };
    let bytes = output.sent();
    let cause = match answer {
        Ok(None) => {
            return Ok(Report {
                geometries: blobs,
                bytes,
                taken,
            });
        }
        Ok(Some(reason)) => UnpackCause::Line {
            offset: taken,
            reason,
        },
        Err(why) => UnpackCause::Stream(why),
    };
    Err(UnpackFault {
        done: blobs,
        sent: bytes,
        taken,
        cause,
    })
}
