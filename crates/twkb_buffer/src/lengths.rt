//! The length of a conversion's output.
ghost use Rattle.std.specs.Prelude.{◌≡◌};
ghost use Rattle.twkb_conversions.specs.Conversions.{outputs_of};
ghost use Rattle.twkb_buffer.specs.Calls.{Measures, MeasuresBy, whole_length_of};

use crate::report::{BufferReport, converted, stopped};
use std::alloc::Global;
use std::io;
use twkb_conversions::{Conversion, convert};
use twkb_convert::{Cause, ConvertFault, Limits, Report, Tap};

// The length in bytes of the whole output of a conversion with this result: of all input, or of
// what is before a refused record or item; `None` if the conversion stopped for another cause.
fn whole_length(answer: Result<Report, ConvertFault>) -> Option<u64>
    ensures { result ≡ whole_length_of answer }
{
    match answer {
        Ok(report) => Some(report.bytes),
        Err(fault) => match fault.cause {
            Cause::Row { .. } | Cause::Blob { .. } => Some(fault.sent),
            _ => None,
        },
    }
}

// The report of a conversion whose output was only counted, and which had this result: `sent` is 0,
// and `needed` is the length of the whole output, or 0 if that is not known.
fn measured(answer: Result<Report, ConvertFault>) -> BufferReport
    ensures { MeasuresBy answer result }
{
    let needed = whole_length(answer).unwrap_or(0);
    let report = match answer {
        Ok(report) => converted(report),
        Err(fault) => stopped(fault),
    };
    BufferReport {
        sent: 0,
        needed,
        ..report
    }
}

/// Reports what a conversion would write, without writing it: `needed` is the length of its whole
/// output in bytes, also if the input is refused, or 0 if that is not known. Takes memory for one
/// geometry.
pub fn measure(alloc: Global, what: Conversion, input: &[u8], limits: Limits) -> BufferReport
    ensures { Measures (outputs_of what limits input.now) result }
{
    let mut reader = Tap::new(input);
    let mut writer = Tap::new(io::sink());
    measured(convert(alloc, what, &mut reader, &mut writer, limits))
}
