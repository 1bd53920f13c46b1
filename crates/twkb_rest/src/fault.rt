//! Why a column was not unpacked whole.
ghost use Rattle.std.specs.Prelude.{◌≡◌, ◌≤◌, length};
ghost use Rattle.twkb_rest.specs.Unpacked.{line_words};

use thiserror::Error;
use twkb_convert::Cause;

/// Why a blob of a stream can't be a field of a column, in the order of the checks (profile).
#[derive(Clone, Copy, Debug, PartialEq, Eq, Error)]
#[error("{}", self.text())]
pub enum LineReason {
    /// The geometry is no linestring.
    NoLinestring,
    /// The linestring has another precision than the first one of the stream.
    AnotherPrecision,
}

impl LineReason {
    /// The reason in a few words, at most 31 bytes. Takes no memory.
    pub fn text(self) -> &'static str
        ensures words { result.now ≡ line_words self }
        ensures short { length (line_words self) ≤ 31 }
    {
        match self {
            LineReason::NoLinestring => "no linestring",
            LineReason::AnotherPrecision => "another precision",
        }
    }
}

/// Why the unpacking of a column stopped.
#[derive(Clone, Copy, Debug, PartialEq, Eq, Error)]
pub enum UnpackCause {
    /// As with any conversion of a stream: a blob that is refused, a device, memory, or the length
    /// of the input or the output.
    #[error("{0}")]
    Stream(Cause),
    /// A whole blob can't be a field of the column. Its offset is that of its first byte, in bytes
    /// from the stream's start.
    #[error("byte {offset}: {reason}")]
    Line { offset: u64, reason: LineReason },
}

/// Where the unpacking of a column stopped, and why.
#[derive(Clone, Copy, Debug, PartialEq, Eq, Error)]
#[error("{cause}")]
pub struct UnpackFault {
    /// The number of blobs whose record the writer took whole.
    pub done: u64,
    /// The number of bytes that the writer took.
    pub sent: u64,
    /// The number of bytes of the blobs in `done`.
    pub taken: u64,
    /// Why the unpacking stopped.
    pub cause: UnpackCause,
}
