//! The records of a rest with a stream of linestrings in a column of them.
ghost use Rattle.std.specs.Prelude.{◌≡◌, ℕ, List, None, Option, [], IfErr, IfOk, OnOk};
ghost use Rattle.twkb_blob.specs.StreamReaders.{reader_in};
ghost use Rattle.twkb_convert.specs.BlobsListed.{IsFresh};
ghost use Rattle.twkb_convert.specs.Listed.{IsBetween};
ghost use Rattle.twkb_io.specs.Outputs.{Took};
ghost use Rattle.twkb_io.specs.Taps.{device_of};
ghost use Rattle.twkb_io.specs.declared.output.Output.{Output};
ghost use Rattle.twkb_blob.specs.declared.reader.Reader.{Reader};
ghost use Rattle.twkb_records.specs.Records.{HasGiven};
ghost use Rattle.twkb_rest.specs.JoinResults.{IsFlushedRest, JoinedRest, StoppedRest};
ghost use Rattle.twkb_rest.specs.JoinSending.{FinishesJoin, Flushes, IsCut, SendsJoined, SentJoined};

use crate::join_fault::{
    JoinCause, JoinFault, after_flush, after_rest, cause_of_put, stream_cause,
};
use crate::line::Lines;
use crate::rest_records::{JoinRoom, RestColumn, next_joined, read_header};
use csv::{ByteRecord, Reader};
use std::alloc::Global;
use std::io::{Read, Write};
use twkb_blob::{StreamReader, StreamRoom};
use twkb_convert::{Cause, Report};
use twkb_io::{Input, OutFault, Output, Sink, Tap};
use twkb_records::new_reader;
use twkb_tree::Limits;

/// Writes the records of a rest with the polylines of a stream of linestrings in their column: the
/// header as it is, and each other record with its field of the column replaced by the polyline of
/// the blob of the same number, after both were read, before the reader of the stream is read again
/// (blobs: TWKB; polylines: Encoded Polyline Algorithm Format; records: RFC 4180; LF after each
/// record: profile). A byte order mark before the header is left out, and a field has quotes only if
/// it needs them. The delimiter should be none of `"`, CR and LF. Returns the number of blobs whose
/// records were all written, the number of bytes written and how many bytes of the stream these
/// blobs took (`taken`), and with an `Err` why it stopped. The header is judged first; then of each
/// blob all that `unpack_column` judges, before the record with its number. A blob without a record
/// or a record without a blob stops it too, after the records before. The writer is flushed last,
/// unless it failed or more than 2^62 bytes would be written. Takes memory for the reader of `csv`,
/// one record, one geometry and their text.
pub fn unpack_rest<R: Read, Q: Read, W: Write>(
    alloc: Global,
    reader: &mut Tap<R>,
    rest: &mut Tap<Q>,
    writer: &mut Tap<W>,
    limits: Limits,
    name: &[u8],
    delimiter: u8,
) -> Result<Report, JoinFault>
    ensures ok { IfOk result (λ report. JoinedRest delimiter name.now limits R.remaining Q.remaining W.contents
        reader.old rest.old writer.old report reader.new rest.new writer.new) }
    ensures err { IfErr result (λ fault. StoppedRest delimiter name.now limits R.remaining Q.remaining W.contents
        reader.old rest.old writer.old fault reader.new rest.new writer.new) }
    ensures flushed { IsFlushedRest result writer.new }
{
    let failures = rest.failures();
    let mut output = Output::new(writer);
    let mut room = StreamRoom::new(alloc);
    let mut blobs = StreamReader::new(Input::new(reader), limits, &mut room);
    let (mut done, mut taken) = (0, 0);
    let sending = send_all(
        alloc,
        name,
        delimiter,
        &mut blobs,
        rest,
        &mut output,
        &mut done,
        &mut taken,
    );
    let has_rest_failed = rest.failures() != failures;
    finish(&mut output, done, taken, sending, has_rest_failed)
}

// Sends these bytes. An `Err` is the cause to report if the output refused them.
fn put<W: Write>(bytes: &[u8], output: &mut Output<'_, W>) -> Result<(), JoinCause>
    ensures ok { OnOk result (Took W.contents output.old bytes.now output.new) }
    ensures err { IfErr result (λ why. IsCut W.contents output.old bytes.now why output.new) }
{
    match output.put(bytes) {
        Ok(()) => Ok(()),
        Err(fault) => Err(cause_of_put(fault)),
    }
}

// Sends the joined records after the header, each in one put, and counts them in `done`, and in
// `taken` the bytes of their blobs. An `Err` is the cause for which it stopped. Takes memory.
fn send_rows<R: Read, Q: Read, W: Write>(
    column: RestColumn,
    blobs: &mut StreamReader<'_, '_, R>,
    csv: &mut Reader<&mut Tap<Q>>,
    room: &mut JoinRoom,
    output: &mut Output<'_, W>,
    done: &mut u64,
    taken: &mut u64,
) -> Result<(), JoinCause>
    requires between { IsBetween (reader_in blobs.old) }
    ensures sends { (name : List ℕ) (told : Option (List ℕ)) (first : Output W)
        → SentJoined name column Q.remaining told W.contents (reader_in blobs.old) first csv.old None
        (reader_in blobs.old) output.old 2 done.old taken.old
        → SendsJoined name column.delimiter told W.contents (reader_in blobs.old) first (reader_in blobs.new)
        output.new done.new taken.new result }
{
    let mut lines = Lines { first: None };
    for number in 2..u64::MAX {
        if !next_joined(&mut lines, column, number, *taken, blobs, csv, room)? {
            return Ok(());
        }
        put(room.text.as_slice(), output)?;
        *done = number - 1;
        *taken = blobs.offset();
    }
    Err(stream_cause(Cause::TooLong))
}

// Sends the header of a rest and the joined records, as `send_rows` does. Both counts must be 0, and
// the readers and the output unused.
fn send_csv<R: Read, Q: Read, W: Write>(
    name: &[u8],
    delimiter: u8,
    blobs: &mut StreamReader<'_, '_, R>,
    csv: &mut Reader<&mut Tap<Q>>,
    room: &mut JoinRoom,
    output: &mut Output<'_, W>,
    done: &mut u64,
    taken: &mut u64,
) -> Result<(), JoinCause>
    requires fresh { IsFresh (reader_in blobs.old) output.old }
    requires none { done.old ≡ 0 }
    requires nothing { taken.old ≡ 0 }
    ensures sends { (told : Option (List ℕ)) → HasGiven delimiter Q.remaining told [] csv.old
        → SendsJoined name.now delimiter told W.contents (reader_in blobs.old) output.old (reader_in blobs.new)
        output.new done.new taken.new result }
{
    let column = read_header(name, delimiter, csv, room)?;
    put(room.text.as_slice(), output)?;
    send_rows(column, blobs, csv, room, output, done, taken)
}

// Sends a rest joined with a stream, as `send_csv` does, from a tap that has read nothing.
fn send_all<R: Read, Q: Read, W: Write>(
    alloc: Global,
    name: &[u8],
    delimiter: u8,
    blobs: &mut StreamReader<'_, '_, R>,
    rest: &mut Tap<Q>,
    output: &mut Output<'_, W>,
    done: &mut u64,
    taken: &mut u64,
) -> Result<(), JoinCause>
    requires fresh { IsFresh (reader_in blobs.old) output.old }
    requires none { done.old ≡ 0 }
    requires nothing { taken.old ≡ 0 }
    ensures sends { SendsJoined name.now delimiter (Q.remaining (device_of rest.old)) W.contents (reader_in blobs.old)
        output.old (reader_in blobs.new) output.new done.new taken.new result }
{
    let mut csv = new_reader(alloc, rest, delimiter);
    let mut room = JoinRoom {
        row: ByteRecord::new(alloc),
        line: Vec::new(alloc),
        text: Vec::new(alloc),
    };
    send_csv(
        name, delimiter, blobs, &mut csv, &mut room, output, done, taken,
    )
}

// Flushes an output, unless it refused a call before, and returns whether that failed.
fn fails_flush<W: Write>(output: &mut Output<'_, W>) -> bool
    ensures flushes { Flushes W.contents output.old result output.new }
{
    match output.flush() {
        Ok(()) | Err(OutFault::Spent) => false,
        Err(_) => true,
    }
}

// Flushes the output of joined records, unless it refused a call before, and reports the number of
// blobs, their bytes, and the number of bytes that the writer took. The result is an `Err` if the
// sending stopped, if the flush or if a read of the rest failed; if more than one, the `Err` has the
// cause of the flush, then that of the stream, then that of the rest. Takes no memory.
fn finish<W: Write>(
    output: &mut Output<'_, W>,
    geometries: u64,
    taken: u64,
    sending: Result<(), JoinCause>,
    has_rest_failed: bool,
) -> Result<Report, JoinFault>
    ensures finishes { FinishesJoin W.contents output.old geometries taken has_rest_failed sending output.new result }
{
    let has_failed = fails_flush(output);
    let bytes = output.sent();
    match after_rest(after_flush(sending, has_failed), has_rest_failed) {
        Ok(()) => Ok(Report {
            geometries,
            bytes,
            taken,
        }),
        Err(cause) => Err(JoinFault {
            done: geometries,
            sent: bytes,
            taken,
            cause,
        }),
    }
}
