//! The answer of a conversion: a report, or a fault.
ghost use Rattle.std.specs.Prelude.{◌≡◌, ◌≤◌, length};
ghost use Rattle.twkb_convert.specs.Causes.{cause_words};

use thiserror::Error;
use twkb_blob::BlobReason;
use twkb_table::RowReason;

/// How much a conversion that reached its end converted and wrote.
#[derive(Clone, Copy, Debug, PartialEq, Eq)]
pub struct Report {
    /// The number of geometries converted.
    pub geometries: u64,
    /// The number of bytes written.
    pub bytes: u64,
    /// How much of the input the geometries are: bytes of a stream; records of a table with that of
    /// its header, or 0 if there is no geometry.
    pub taken: u64,
}

/// Why a conversion stopped.
#[derive(Clone, Copy, Debug, PartialEq, Eq, Error)]
#[error("{}", self.text())]
pub enum Cause {
    /// A record of the packed table is refused. Records are counted from 1, which is the header.
    #[error("record {number}: {reason}")]
    Row { number: u64, reason: RowReason },
    /// An item of the stream that is unpacked or shown is refused. Its offset is in bytes from
    /// the stream's start.
    #[error("byte {offset}: {reason}")]
    Blob { offset: u64, reason: BlobReason },
    /// A read failed.
    ReadDevice,
    /// A write or a flush failed, or a write took nothing.
    WriteDevice,
    /// Memory was refused.
    Memory,
    /// More than 2^62 bytes would be written or, for a stream, read; or a table's reader gave
    /// 2^64 - 1 bytes and no end.
    TooLong,
    /// The packed table has a record with number 2^32.
    TooManyRecords,
}

impl Cause {
    /// The cause in a few words, at most 31 bytes, without its place. Takes no memory.
    #[tactic(auto, using(crate::proofs::ListingLemmas::short_cause))]
    pub fn text(self) -> &'static str
        ensures words { result.now ≡ cause_words self }
        ensures short { length (cause_words self) ≤ 31 }
    {
        match self {
            Cause::Row { reason, .. } => reason.text(),
            Cause::Blob { reason, .. } => reason.text(),
            Cause::ReadDevice => "read failed",
            Cause::WriteDevice => "write failed",
            Cause::Memory => "out of memory",
            Cause::TooLong => "input or output too long",
            Cause::TooManyRecords => "too many records",
        }
    }
}

/// Where a conversion stopped, and why.
#[derive(Clone, Copy, Debug, PartialEq, Eq, Error)]
#[error("{cause}")]
pub struct ConvertFault {
    /// The number of geometries whose output the writer took whole.
    pub done: u64,
    /// The number of bytes that the writer took.
    pub sent: u64,
    /// How much of the input the geometries in `done` are, as `Report` counts it.
    pub taken: u64,
    /// Why the conversion stopped.
    pub cause: Cause,
}
