//! Why the records of a rest were not joined with a stream.
ghost use Rattle.std.specs.Prelude.{◌≡◌, ◌≤◌, length};
ghost use Rattle.twkb_rest.specs.JoinCauses.{after_flush, after_rest, cause_of_put, rest_words};

use crate::fault::UnpackCause;
use thiserror::Error;
use twkb_convert::Cause;
use twkb_io::OutFault;

/// Why a record of a rest is refused, in the order of the checks (profile).
#[derive(Clone, Copy, Debug, PartialEq, Eq, Error)]
#[error("{}", self.text())]
pub enum RestReason {
    /// No field of the header is the name of the column, or there is no header.
    NoSuchColumn,
    /// More than one field of the header is the name of the column.
    ColumnTwice,
    /// The record has another number of fields than the header.
    FieldCount,
    /// The stream has no blob for the record.
    NoBlob,
}

impl RestReason {
    /// The reason in a few words, at most 22 bytes. Takes no memory.
    pub fn text(self) -> &'static str
        ensures words { result.now ≡ rest_words self }
        ensures short { length (rest_words self) ≤ 22 }
    {
        match self {
            RestReason::NoSuchColumn => "no such column",
            RestReason::ColumnTwice => "column twice",
            RestReason::FieldCount => "wrong number of fields",
            RestReason::NoBlob => "no blob for the record",
        }
    }
}

/// Why the joining of a rest with a stream stopped.
#[derive(Clone, Copy, Debug, PartialEq, Eq, Error)]
pub enum JoinCause {
    /// As with `unpack_column`: the stream, a blob of it that can't be in the column, a device,
    /// memory, or a length.
    #[error("{0}")]
    Column(UnpackCause),
    /// The rest has no record for a whole blob, whose offset is that of its first byte, in bytes
    /// from the stream's start.
    #[error("byte {offset}: no record for the blob")]
    NoRecord { offset: u64 },
    /// A record of the rest is refused. Records are counted from 1, which is the header.
    #[error("record {number}: {reason}")]
    Rest { number: u64, reason: RestReason },
    /// A read of the rest failed.
    #[error("read failed")]
    RestDevice,
}

/// Where the joining of a rest with a stream stopped, and why.
#[derive(Clone, Copy, Debug, PartialEq, Eq, Error)]
#[error("{cause}")]
pub struct JoinFault {
    /// The number of blobs whose record the writer took whole.
    pub done: u64,
    /// The number of bytes that the writer took.
    pub sent: u64,
    /// The number of bytes of the blobs in `done`.
    pub taken: u64,
    /// Why the joining stopped.
    pub cause: JoinCause,
}

// A cause of a stream.
pub(crate) fn stream_cause(why: Cause) -> JoinCause
    ensures { result ≡ JoinCause.Column (UnpackCause.Stream why) }
{
    JoinCause::Column(UnpackCause::Stream(why))
}

// The cause to report for a fault of an output.
pub(crate) fn cause_of_put(fault: OutFault) -> JoinCause
    ensures { result ≡ cause_of_put fault }
{
    stream_cause(Cause::from(fault))
}

// The answer to report in place of `answer`, given whether the flush failed.
pub(crate) fn after_flush(answer: Result<(), JoinCause>, has_failed: bool) -> Result<(), JoinCause>
    ensures { result ≡ after_flush has_failed answer }
{
    if has_failed {
        return Err(stream_cause(Cause::WriteDevice));
    }
    answer
}

// The answer to report in place of `answer`, given whether a read of the rest failed. If one did,
// that is `RestDevice`, unless `answer` is another failed device, which stays. If none did,
// `RestDevice` becomes `Memory`, and any other answer stays.
pub(crate) fn after_rest(
    answer: Result<(), JoinCause>,
    has_rest_failed: bool,
) -> Result<(), JoinCause>
    ensures { result ≡ after_rest has_rest_failed answer }
{
    match answer {
        Err(JoinCause::Column(UnpackCause::Stream(Cause::WriteDevice | Cause::ReadDevice))) =>
            answer,
        _ if has_rest_failed => Err(JoinCause::RestDevice),
        Err(JoinCause::RestDevice) => Err(stream_cause(Cause::Memory)),
        _ => answer,
    }
}
