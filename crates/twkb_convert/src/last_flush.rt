//! The flush of an output, the last act of a conversion.
ghost use Rattle.twkb_convert.specs.Outputs.{Finishes};

use crate::report::{Cause, ConvertFault, Report};
use std::io::Write;
use twkb_io::{OutFault, Output};

// Flushes the output of a conversion, unless the output refused a call before, and reports
// `geometries`, the input `taken` for them, and the number of bytes that the writer took.
// `sending` says whether the conversion stopped, and why. The result is an `Err` if it did or if
// the flush fails; if both, the `Err` has the cause of the flush. Takes no memory.
pub(crate) fn finish<W: Write>(
    output: &mut Output<'_, W>,
    geometries: u64,
    taken: u64,
    sending: Result<(), Cause>,
) -> Result<Report, ConvertFault>
    ensures finishes { Finishes W.contents output.old geometries taken sending output.new result }
{
    let answer = match output.flush() {
        Ok(()) | Err(OutFault::Spent) => sending,
        Err(fault) => Err(Cause::from(fault)),
    };
    let bytes = output.sent();
    match answer {
        Ok(()) => Ok(Report {
            geometries,
            bytes,
            taken,
        }),
        Err(cause) => Err(ConvertFault {
            done: geometries,
            sent: bytes,
            taken,
            cause,
        }),
    }
}
