//! The flush of both outputs, the last act of packing.
ghost use Rattle.std.specs.Prelude.{◌≡◌};
ghost use Rattle.twkb_split.specs.Results.{records_of};
ghost use Rattle.twkb_split.specs.Sending.{Finishes, Flushes, reported};

use crate::causes::{after_flush, after_reads};
use std::io::Write;
use twkb_column::{ColumnCause, ColumnFault, Report};
use twkb_io::{OutFault, Output};

// Flushes an output, unless it refused a call before, and returns whether that failed.
fn fails_flush<W: Write>(output: &mut Output<'_, W>) -> bool
    ensures flushes { Flushes W.contents output.old result output.new }
{
    match output.flush() {
        Ok(()) | Err(OutFault::Spent) => false,
        Err(_) => true,
    }
}

// The number of records of the CSV, with its header, that so many pieces are; 0 if there is no blob.
fn records_of(pieces: u64) -> u64
    ensures { result ≡ records_of pieces }
{
    if pieces.saturating_sub(1) == 0 {
        0
    } else {
        pieces
    }
}

// The report or the fault of an answer, with the numbers of pieces, one of which is the header, and
// of the stream's bytes.
fn reported(pieces: u64, bytes: u64, answer: Result<(), ColumnCause>) -> Result<Report, ColumnFault>
    ensures { result ≡ reported pieces bytes answer }
{
    let blobs = pieces.saturating_sub(1);
    let taken = records_of(pieces);
    match answer {
        Ok(()) => Ok(Report {
            geometries: blobs,
            bytes,
            taken,
        }),
        Err(cause) => Err(ColumnFault {
            done: blobs,
            sent: bytes,
            taken,
            cause,
        }),
    }
}

// Flushes both outputs, each unless it refused a call before, and reports the number of blobs in so
// many pieces, and the number of bytes of the stream. `sending` says whether the packing stopped,
// and why. The result is an `Err` if it did, if a flush or if a read failed; if more than one, the
// `Err` has the cause of a flush, then that of the read. Takes no memory.
pub(crate) fn finish<W: Write, V: Write>(
    blobs: &mut Output<'_, W>,
    rest: &mut Output<'_, V>,
    pieces: u64,
    sending: Result<(), ColumnCause>,
    has_read_failed: bool,
) -> Result<Report, ColumnFault>
    ensures finishes { Finishes W.contents V.contents blobs.old blobs.new rest.old rest.new pieces has_read_failed
        sending result }
{
    let has_rest_failed = fails_flush(rest);
    let has_failed = fails_flush(blobs);
    let flushed = after_flush(sending, has_rest_failed || has_failed);
    reported(pieces, blobs.sent(), after_reads(flushed, has_read_failed))
}
