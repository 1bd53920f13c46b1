//! Conversions from a slice into a slice.
ghost use Rattle.std.specs.Prelude.{◌≡◌, ◌≢◌, ◌<◌};
ghost use Rattle.twkb_conversions.specs.Conversions.{outputs_of};
ghost use Rattle.twkb_buffer.specs.Calls.{Fills, FillsSlice};
ghost use Rattle.twkb_buffer.specs.Slices.{buffer_of, filled_of};

use crate::filler::Filler;
use crate::lengths::measure;
use crate::reason_numbers::TOO_SMALL;
use crate::report::{BufferReport, converted, stopped};
use std::alloc::Global;
use std::mem;
use twkb_conversions::{Conversion, convert};
use twkb_convert::{ConvertFault, Limits, Report, Tap};

// Converts a slice into the slice of a filler, which must have filled nothing, as far as there is
// room. Returns the result of the conversion, `WriteDevice` if the room ended. During the call the
// filler belongs to the tap; then it is moved back, so that the caller can prove that it still
// holds the same borrow. Takes memory.
fn run_into(
    alloc: Global,
    what: Conversion,
    input: &[u8],
    filler: &mut Filler<'_>,
    limits: Limits,
) -> Result<Report, ConvertFault>
    requires { filled_of filler.old ≡ 0 }
    ensures same_borrow { (buffer_of filler.new).ghost_name ≡ (buffer_of filler.old).ghost_name }
    ensures fills { Fills (outputs_of what limits input.now) (buffer_of filler.new).now result }
{
    let mut reader = Tap::new(input);
    let mut writer = Tap::new(mem::replace(filler, Filler::new(&mut [])));
    let answer = convert(alloc, what, &mut reader, &mut writer, limits);
    *filler = writer.into_inner();
    answer
}

// Converts a slice into another, from its start on and as far as there is room. Returns the result
// of the conversion, `WriteDevice` if the room ended. Takes memory.
fn fill_front(
    alloc: Global,
    what: Conversion,
    input: &[u8],
    output: &mut [u8],
    limits: Limits,
) -> Result<Report, ConvertFault>
    ensures fills { Fills (outputs_of what limits input.now) output.new result }
{
    let mut filler = Filler::new(output);
    run_into(alloc, what, input, &mut filler, limits)
}

// The report with `needed` set to `whole`, the length of the whole output, if as many bytes were
// sent as there is room for, and `whole` is more; else to 0. A length that is not known is 0. Takes
// no memory.
pub(crate) fn with_needed(report: BufferReport, whole: u64, room: usize) -> BufferReport
    ensures same { result ≡ record report { needed = result.needed } }
    ensures only { result.needed ≢ 0 → (report.sent ≡ room) × (room < result.needed) × (result.needed ≡ whole) }
{
    let is_known = report.sent == room as u64 && whole > report.sent;
    let needed = if is_known { whole } else { 0 };
    BufferReport { needed, ..report }
}

/// Converts a slice into another, from its start on and as far as there is room. If there is too
/// little, reports status 5, and converts again without an output, to report the size needed, or 0
/// if that is not known. Takes memory for one geometry, and for its text or one record.
pub fn fill(
    alloc: Global,
    what: Conversion,
    input: &[u8],
    output: &mut [u8],
    limits: Limits,
) -> BufferReport
    ensures { FillsSlice (outputs_of what limits input.now) output.new result }
{
    let room = output.len();
    let fault = match fill_front(alloc, what, input, output, limits) {
        Ok(report) => return converted(report),
        Err(fault) => fault,
    };
    let report = stopped(fault);
    if report.status != TOO_SMALL {
        return report;
    }
    let whole = measure(alloc, what, input, limits);
    with_needed(report, whole.needed, room)
}
