//! The flush of an output, the last act of a conversion.
ghost use Rattle.twkb_hex.specs.Results.{Finishes};

use crate::report::{HexCause, HexFault, HexReport};
use std::io::Write;
use twkb_io::{OutFault, Output};

// Flushes the output of a conversion, unless the output refused a call before, and reports
// `records` and the number of bytes that the writer took. `sending` says whether the conversion
// stopped, and why. The result is an `Err` if it did or if the flush fails; if both, the `Err` has
// the cause of the flush. Takes no memory.
pub(crate) fn finish<W: Write>(
    output: &mut Output<'_, W>,
    records: u64,
    sending: Result<(), HexCause>,
) -> Result<HexReport, HexFault>
    ensures finishes { Finishes W.contents output.old records sending output.new result }
{
    let answer = match output.flush() {
        Ok(()) | Err(OutFault::Spent) => sending,
        Err(fault) => Err(HexCause::from(fault)),
    };
    let bytes = output.sent();
    match answer {
        Ok(()) => Ok(HexReport { records, bytes }),
        Err(cause) => Err(HexFault {
            done: records,
            sent: bytes,
            cause,
        }),
    }
}
