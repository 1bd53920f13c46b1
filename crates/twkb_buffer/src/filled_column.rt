//! Conversions of a column of a CSV from a slice into a slice.
ghost use Rattle.std.specs.Prelude.{◌≡◌, ◌≢◌, ◌<◌};
ghost use Rattle.twkb_buffer.specs.ColumnCalls.{FillsColumn, FillsFront, whole_length_of};
ghost use Rattle.twkb_buffer.specs.ColumnJobs.{column_outputs};
ghost use Rattle.twkb_buffer.specs.Slices.{buffer_of, filled_of};

use crate::column_job::{ColumnConversion, JobCause, JobFault, run_job};
use crate::column_numbers::stopped_job;
use crate::filled_slice::with_needed;
use crate::filler::Filler;
use crate::reason_numbers::TOO_SMALL;
use crate::report::{BufferReport, converted};
use std::alloc::Global;
use std::{io, mem};
use twkb_column::{Column, ColumnCause};
use twkb_convert::{Cause, Limits, Report, Tap};
use twkb_rest::UnpackCause;

// Converts a slice into the slice of a filler, as `filled_slice::run_into` does.
fn run_into(
    alloc: Global,
    what: ColumnConversion,
    column: Column<'_>,
    input: &[u8],
    filler: &mut Filler<'_>,
    limits: Limits,
) -> Result<Report, JobFault>
    requires { filled_of filler.old ≡ 0 }
    ensures same_borrow { (buffer_of filler.new).ghost_name ≡ (buffer_of filler.old).ghost_name }
    ensures fills { FillsFront (column_outputs what column.entry limits input.now) (buffer_of filler.new).now result }
{
    let mut reader = Tap::new(input);
    let mut writer = Tap::new(mem::replace(filler, Filler::new(&mut [])));
    let answer = run_job(alloc, what, column, &mut reader, &mut writer, limits);
    *filler = writer.into_inner();
    answer
}

// Converts a slice into another, from its start on and as far as there is room. Returns the result
// of the conversion, `WriteDevice` if the room ended. Takes memory.
fn fill_front(
    alloc: Global,
    what: ColumnConversion,
    column: Column<'_>,
    input: &[u8],
    output: &mut [u8],
    limits: Limits,
) -> Result<Report, JobFault>
    ensures fills { FillsFront (column_outputs what column.entry limits input.now) output.new result }
{
    let mut filler = Filler::new(output);
    run_into(alloc, what, column, input, &mut filler, limits)
}

// The length in bytes of the whole output of a conversion with this result: of all input, or of
// what is before a refused record or item; 0 if the conversion stopped for another cause.
fn whole_length(answer: Result<Report, JobFault>) -> u64
    ensures { result ≡ whole_length_of answer }
{
    let fault = match answer {
        Ok(report) => return report.bytes,
        Err(fault) => fault,
    };
    match fault.cause {
        JobCause::Pack(ColumnCause::Csv { .. } | ColumnCause::Pack(Cause::Row { .. })) =>
            fault.sent,
        JobCause::Unpack(UnpackCause::Line { .. } | UnpackCause::Stream(Cause::Blob { .. })) => {
            fault.sent
        }
        _ => 0,
    }
}

// The length in bytes of the whole output of a conversion, even if the input is refused, or 0 if it
// is not known. Takes memory as the conversion does.
fn length_of(
    alloc: Global,
    what: ColumnConversion,
    column: Column<'_>,
    input: &[u8],
    limits: Limits,
) -> u64
    ensures { result ≢ 0 → (column_outputs what column.entry limits input.now).HasLength result }
{
    let mut reader = Tap::new(input);
    let mut writer = Tap::new(io::sink());
    whole_length(run_job(alloc, what, column, &mut reader, &mut writer, limits))
}

/// Converts a column of a CSV from a slice into another, from its start on and as far as there is
/// room, as `pack_column` and `unpack_column` do. If there is too little, reports status 5, and
/// converts again without an output, to report the size needed, or 0 if that is not known. Takes
/// memory as those functions do.
pub fn fill_column(
    alloc: Global,
    what: ColumnConversion,
    column: Column<'_>,
    input: &[u8],
    output: &mut [u8],
    limits: Limits,
) -> BufferReport
    ensures { FillsColumn (column_outputs what column.entry limits input.now) output.new result }
{
    let room = output.len();
    let fault = match fill_front(alloc, what, column, input, output, limits) {
        Ok(report) => return converted(report),
        Err(fault) => fault,
    };
    let report = stopped_job(fault);
    if report.status != TOO_SMALL {
        return report;
    }
    let whole = length_of(alloc, what, column, input, limits);
    with_needed(report, whole, room)
}
