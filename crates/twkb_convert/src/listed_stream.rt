//! Streams of blobs as tables, as GeoJSON, and as their headers: the text of each blob is sent before
//! the reader is read again.
ghost use Rattle.std.specs.Prelude.{◌≡◌, IfOk, IfErr};
ghost use Rattle.twkb_blob.specs.StreamReaders.{reader_in};
ghost use Rattle.twkb_convert.specs.Listings.{LocatedStream, geometries_of, headers_bytes, listing_text};
ghost use Rattle.twkb_convert.specs.Outputs.{IsFlushed};
ghost use Rattle.twkb_convert.specs.BlobsListed.{IsFresh, Lists};
ghost use Rattle.twkb_convert.specs.Listed.{Listed, StoppedListing};
ghost use Rattle.twkb_convert.specs.Packed.{StoppedUnpacking, Unpacked, Shown, StoppedShowing};
ghost use Rattle.twkb_convert.specs.Packed.{StoppedGeojson, UnpackedGeojson};

use crate::blob_text::{BlobText, GeojsonLines, TableRows};
use crate::last_flush::finish;
use crate::report::{Cause, ConvertFault, Report};
use crate::span_texts::{CLayout, Line, SpanTexts};
use std::alloc::Global;
use std::io::{Read, Write};
use twkb_blob::{StreamReader, StreamRoom};
use twkb_io::{Input, Output, Sink, Tap};
use twkb_tree::Limits;

/// Writes the table of a stream of blobs: the header's line, and then the rows of each blob, after
/// it was read whole, before the reader is read again (blobs: TWKB; polylines: Encoded Polyline
/// Algorithm Format; records: RFC 4180; the columns, and LF alone after each record: profile).
/// Returns the number of blobs whose rows were all written, the number of bytes written and how
/// many bytes of the input these blobs took (`taken`), and with an `Err` why it stopped. A blob
/// that is refused, as one past the limits is, stops it after the rows of the blobs before. The
/// writer is flushed last, unless it failed or more than 2^62 bytes would be written. Takes memory
/// for one geometry and its text.
pub fn unpack<R: Read, W: Write>(
    alloc: Global,
    reader: &mut Tap<R>,
    writer: &mut Tap<W>,
    limits: Limits,
) -> Result<Report, ConvertFault>
    ensures ok { IfOk result (λ report. Unpacked limits R.remaining W.contents reader.old writer.old
        report reader.new writer.new) }
    ensures err { IfErr result (λ fault. StoppedUnpacking limits R.remaining W.contents reader.old
        writer.old fault reader.new writer.new) }
    ensures flushed { IsFlushed result writer.new }
{
    list_stream(&mut TableRows, alloc, reader, writer, limits)
}

/// Writes the GeoJSON of a stream of blobs: a line for each blob, with the text of its geometry
/// without blanks and LF at its end, after the blob was read whole, before the reader is read again
/// (blobs: TWKB; geometries: RFC 7946, section 3.1; the member `ids` and the exact decimals of
/// coordinates: profile). The result, a refused blob and the flush are as with `unpack`, with lines
/// in place of rows. Takes memory for one geometry and its text and, if the geometry has more than
/// one row, for another form of it.
pub fn unpack_geojson<R: Read, W: Write>(
    alloc: Global,
    reader: &mut Tap<R>,
    writer: &mut Tap<W>,
    limits: Limits,
) -> Result<Report, ConvertFault>
    ensures ok { IfOk result (λ report. UnpackedGeojson limits R.remaining W.contents reader.old
        writer.old report reader.new writer.new) }
    ensures err { IfErr result (λ fault. StoppedGeojson limits R.remaining W.contents reader.old
        writer.old fault reader.new writer.new) }
    ensures flushed { IsFlushed result writer.new }
{
    list_stream(&mut GeojsonLines, alloc, reader, writer, limits)
}

/// Writes a line for each TWKB header of a stream of blobs, in order, with one space between its
/// words and LF at its end: the number of collections that the geometry is in, the offset of its
/// type byte in bytes from the stream's start, its kind, its precision, its metadata byte as two
/// upper-case hexadecimal digits, the number of its bytes from the type byte to its end, and the
/// number of its points, those of members included (headers: TWKB; the line: profile). The lines of
/// a blob are written after it was read whole, before the reader is read again. Returns the number
/// of blobs whose lines were all written, the number of bytes written and how many bytes of the
/// input these blobs took (`taken`), and with an `Err` why it stopped. A blob that is refused, as
/// one past the limits is, stops it after the lines of the blobs before. The writer is flushed
/// last, unless it failed or more than 2^62 bytes would be written. Takes memory for one geometry,
/// its spans and their text.
pub fn show<R: Read, W: Write>(
    alloc: Global,
    reader: &mut Tap<R>,
    writer: &mut Tap<W>,
    limits: Limits,
) -> Result<Report, ConvertFault>
    ensures ok { IfOk result (λ report. Shown limits R.remaining W.contents reader.old writer.old
        report reader.new writer.new) }
    ensures err { IfErr result (λ fault. StoppedShowing limits R.remaining W.contents reader.old
        writer.old fault reader.new writer.new) }
    ensures flushed { IsFlushed result writer.new }
{
    let mut spans = SpanTexts::<Line>::new(alloc);
    list_stream(&mut spans, alloc, reader, writer, limits)
}

/// Writes the TWKB headers of a stream of blobs in C's layout, for programs: for each line of `show`
/// 32 bytes, in the same order. They are the offset, the length and the number of points, of eight
/// bytes each, and the number of collections that the geometry is in, of four, the lowest byte
/// first; then a byte each for the number of the type, the precision as an `i8`, the metadata byte,
/// and 0 (headers: TWKB; the layout: profile). The result, a refused blob and the flush are as with
/// `show`, with these bytes in place of lines. Takes memory for one geometry, its spans and their
/// bytes.
pub fn headers<R: Read, W: Write>(
    alloc: Global,
    reader: &mut Tap<R>,
    writer: &mut Tap<W>,
    limits: Limits,
) -> Result<Report, ConvertFault>
    ensures ok { IfOk result (λ report. Listed (LocatedStream limits 0) headers_bytes R.remaining
        W.contents reader.old writer.old report reader.new writer.new) }
    ensures err { IfErr result (λ fault. StoppedListing (LocatedStream limits 0) geometries_of
        headers_bytes limits R.remaining W.contents reader.old writer.old fault reader.new
        writer.new) }
    ensures flushed { IsFlushed result writer.new }
{
    let mut layouts = SpanTexts::<CLayout>::new(alloc);
    list_stream(&mut layouts, alloc, reader, writer, limits)
}

// Writes the text of a stream of blobs, as `maker` makes it: the text before the first blob, and
// then that of each blob, before the reader is read again. The result and the flush are as with
// `unpack`, with the texts of blobs in place of their rows. Takes memory for one geometry and its
// text, and for what `maker` keeps of it.
pub(crate) fn list_stream<R: Read, W: Write, T: BlobText>(
    maker: &mut T,
    alloc: Global,
    reader: &mut Tap<R>,
    writer: &mut Tap<W>,
    limits: Limits,
) -> Result<Report, ConvertFault>
    ensures ok { IfOk result (λ report. Listed (LocatedStream limits 0) (listing_text T.layout)
        R.remaining W.contents reader.old writer.old report reader.new writer.new) }
    ensures err { IfErr result (λ fault. StoppedListing (LocatedStream limits 0) geometries_of
        (listing_text T.layout) limits R.remaining W.contents reader.old writer.old fault reader.new
        writer.new) }
    ensures flushed { IsFlushed result writer.new }
{
    let mut output = Output::new(writer);
    let mut room = StreamRoom::new(alloc);
    let mut blobs = StreamReader::new(Input::new(reader), limits, &mut room);
    let mut text = Vec::new(alloc);
    let (mut done, mut taken) = (0, 0);
    let sending = list_blobs(
        maker,
        &mut blobs,
        &mut text,
        &mut output,
        &mut done,
        &mut taken,
    );
    finish(&mut output, done, taken, sending)
}

// Sends the text before the first blob, and then the text of each blob that a reader gives, each in
// one put. The text of a blob is made in `text`, in place of what that holds. Counts in `done` the
// blobs whose text was sent whole, and in `taken` their bytes; both must be 0. The reader and the
// output must be unused. An `Err` is the cause for which it stopped. Takes memory as `read_next`
// does.
pub(crate) fn list_blobs<R: Read, W: Write, T: BlobText>(
    maker: &mut T,
    blobs: &mut StreamReader<'_, '_, R>,
    text: &mut Vec<u8>,
    output: &mut Output<'_, W>,
    done: &mut u64,
    taken: &mut u64,
) -> Result<(), Cause>
    requires fresh { IsFresh (reader_in blobs.old) output.old }
    requires none { done.old ≡ 0 }
    requires nothing { taken.old ≡ 0 }
    ensures lists { Lists T.layout W.contents (reader_in blobs.old) output.old (reader_in blobs.new)
        output.new done.new taken.new result }
{
    output.put(T::first_line())?;
    while maker.read_next(blobs, text)? {
        output.put(text.as_slice())?;
        *done += 1;
        *taken = blobs.offset();
    }
    Ok(())
}
