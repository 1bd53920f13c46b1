//! The exit status of a run.
ghost use Rattle.std.specs.Prelude.{◌≡◌};
ghost use Rattle.twkb_command.specs.Outcome.{status_of, stop_status};

use crate::stop::Stop;
use twkb_convert::Cause;

// Everything was converted, or help or the version was asked for.
pub(crate) const DONE: u8 = 0;

// The input is refused, or the input or the output is too long.
const REFUSED: u8 = 1;

// The words of the command line are refused.
pub(crate) const USAGE: u8 = 2;

// A device failed, or a file could not be opened.
pub(crate) const DEVICE: u8 = 3;

// Memory was refused.
pub(crate) const MEMORY: u8 = 4;

/// The exit status after a conversion that stopped for this cause: 1 if the input is refused, or
/// the input or the output is too long, 3 if a device failed, 4 if memory was refused. Takes no
/// memory.
pub fn status(cause: &Cause) -> u8
    ensures { result ≡ status_of cause.now }
{
    match cause {
        Cause::Row { .. } | Cause::Blob { .. } | Cause::TooLong | Cause::TooManyRecords => REFUSED,
        Cause::ReadDevice | Cause::WriteDevice => DEVICE,
        Cause::Memory => MEMORY,
    }
}

/// The exit status after a job that stopped: that of its cause, and 1 if a record of a CSV or a
/// blob is refused. Takes no memory.
pub(crate) fn stop_status(stop: &Stop) -> u8
    ensures { result ≡ stop_status stop.now }
{
    match stop {
        Stop::Cause(cause) => status(cause),
        Stop::Csv { .. } | Stop::Hex { .. } | Stop::Line { .. } => REFUSED,
    }
}
