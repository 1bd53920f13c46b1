//! Conversions of a column of a CSV, over any reader and writer.
ghost use Rattle.std.specs.Prelude.{◌≡◌};
ghost use Rattle.twkb_buffer.specs.ColumnJobs.{RunsColumn, as_packed, as_unpacked};

use std::alloc::Global;
use std::io::{Read, Write};
use twkb_column::{Column, ColumnCause, ColumnFault, pack_column};
use twkb_convert::{Limits, Report, Style, Tap};
use twkb_rest::{UnpackCause, UnpackFault, unpack_column};

/// A conversion of a column of a CSV.
#[derive(Clone, Copy, PartialEq, Eq, Debug)]
pub enum ColumnConversion {
    /// Packs the column into a stream, in a style.
    Pack(Style),
    /// Unpacks a stream of linestrings to a CSV of the column alone.
    Unpack,
}

/// Why a conversion of a column stopped.
#[derive(Clone, Copy, PartialEq, Eq, Debug)]
pub enum JobCause {
    /// Why packing did.
    Pack(ColumnCause),
    /// Why unpacking did.
    Unpack(UnpackCause),
}

/// Where a conversion of a column stopped, and why.
#[derive(Clone, Copy, PartialEq, Eq, Debug)]
pub struct JobFault {
    /// The number of geometries whose output was written whole.
    pub done: u64,
    /// The number of bytes written.
    pub sent: u64,
    /// How much of the input the geometries in `done` are: records of a CSV, or bytes of a stream.
    pub taken: u64,
    /// Why it stopped.
    pub cause: JobCause,
}

// The result of packing, as that of a conversion of a column.
fn as_packed(answer: Result<Report, ColumnFault>) -> Result<Report, JobFault>
    ensures { result ≡ as_packed answer }
{
    match answer {
        Ok(report) => Ok(report),
        Err(fault) => Err(JobFault {
            done: fault.done,
            sent: fault.sent,
            taken: fault.taken,
            cause: JobCause::Pack(fault.cause),
        }),
    }
}

// The result of unpacking, as that of a conversion of a column.
fn as_unpacked(answer: Result<Report, UnpackFault>) -> Result<Report, JobFault>
    ensures { result ≡ as_unpacked answer }
{
    match answer {
        Ok(report) => Ok(report),
        Err(fault) => Err(JobFault {
            done: fault.done,
            sent: fault.sent,
            taken: fault.taken,
            cause: JobCause::Unpack(fault.cause),
        }),
    }
}

// Converts all that a reader gives as `pack_column` or `unpack_column` does. The result and the
// memory that it takes are those of that function.
pub(crate) fn run_job<R: Read, W: Write>(
    alloc: Global,
    what: ColumnConversion,
    column: Column<'_>,
    reader: &mut Tap<R>,
    writer: &mut Tap<W>,
    limits: Limits,
) -> Result<Report, JobFault>
    ensures { RunsColumn what column.entry limits R.remaining W.contents reader.old writer.old reader.new writer.new
        result }
{
    match what {
        ColumnConversion::Pack(style) => {
            as_packed(pack_column(alloc, reader, writer, limits, style, column))
        }
        ColumnConversion::Unpack => as_unpacked(unpack_column(
            alloc,
            reader,
            writer,
            limits,
            column.name,
            column.delimiter,
        )),
    }
}
