//! Why a job stopped.
ghost use Rattle.std.specs.Prelude.{◌≡◌};
ghost use Rattle.twkb_command.specs.Outcome.{column_stop, hex_stop, lines_stop};

use twkb_column::{ColumnCause, ColumnReason};
use twkb_convert::Cause;
use twkb_hex::{HexCause, HexReason};
use twkb_rest::LineReason;

/// Why a job stopped.
#[derive(Clone, Copy, PartialEq, Eq, Debug)]
pub enum Stop {
    /// A cause that conversions have.
    Cause(Cause),
    /// A record of a CSV is refused, of which a column is packed.
    Csv { number: u64, reason: ColumnReason },
    /// A record of a CSV is refused, whose column would become digits, or polylines again.
    Hex { number: u64, reason: HexReason },
    /// A blob of a stream can't be a field of a column. Its offset is that of its first byte.
    Line { offset: u64, reason: LineReason },
}

impl Stop {
    // The reason of the job for one of packing a column.
    pub(crate) fn of_column(cause: ColumnCause) -> Stop
        ensures { result ≡ column_stop cause }
    {
        match cause {
            ColumnCause::Csv { number, reason } => Stop::Csv { number, reason },
            ColumnCause::Pack(cause) => Stop::Cause(cause),
        }
    }

    // The reason of the job for one of writing a column as digits, or as polylines again.
    pub(crate) fn of_hex(cause: HexCause) -> Stop
        ensures { result ≡ hex_stop cause }
    {
        match cause {
            HexCause::Record { number, reason } => Stop::Hex { number, reason },
            HexCause::ReadDevice => Stop::Cause(Cause::ReadDevice),
            HexCause::WriteDevice => Stop::Cause(Cause::WriteDevice),
            HexCause::Memory => Stop::Cause(Cause::Memory),
            HexCause::TooLong => Stop::Cause(Cause::TooLong),
        }
    }

    // The reason of the job for one of unpacking a column.
    pub(crate) fn of_lines(cause: twkb_rest::UnpackCause) -> Stop
        ensures { result ≡ lines_stop cause }
    {
        match cause {
            twkb_rest::UnpackCause::Line { offset, reason } => Stop::Line { offset, reason },
            twkb_rest::UnpackCause::Stream(cause) => Stop::Cause(cause),
        }
    }
}
