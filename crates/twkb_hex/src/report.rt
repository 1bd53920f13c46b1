//! The answer of a conversion: a report, or a fault.
ghost use Rattle.std.specs.Prelude.{◌≡◌, ◌≤◌, length};
ghost use Rattle.twkb_hex.specs.Causes.{cause_words, reason_words};

use thiserror::Error;
use twkb_engine::BlobReason;
use twkb_polyline::PolyReason;

/// How much a conversion that reached its end converted and wrote.
#[derive(Clone, Copy, Debug, PartialEq, Eq)]
pub struct HexReport {
    /// The number of records converted, with that of the header.
    pub records: u64,
    /// The number of bytes written.
    pub bytes: u64,
}

/// Why a record is refused, in the order of the checks (profile). `MissingValue` to `Polyline` are
/// reasons of `pack_hex` alone, `NoDigits` to `MoreBlobs` of `unpack_hex` alone.
#[derive(Clone, Copy, Debug, PartialEq, Eq, Error)]
#[error("{}", self.text())]
pub enum HexReason {
    /// No field of the header is the name of the column, or there is no header.
    NoColumn,
    /// More than one field of the header is the name of the column.
    ColumnTwice,
    /// The record does not have as many fields as the header.
    FieldCount,
    /// The field of the column is a word that other programs write for a missing value, and is not
    /// named as one.
    MissingValue,
    /// The precision of the column is not from -8 to 7.
    BadPrecision,
    /// The polyline is refused at this byte of it, counted from 0 (Encoded Polyline Algorithm
    /// Format).
    #[error("polyline at {0}: {1}")]
    Polyline(usize, PolyReason),
    /// The field has no hexadecimal digits at this byte of the blob, counted from 0: one of its two
    /// characters is no digit, or there is none at all.
    #[error("byte {0}: no hexadecimal digits")]
    NoDigits(usize),
    /// The field has a digit too many or too few: one is left over, at this byte of the blob.
    #[error("byte {0}: odd number of digits")]
    OddDigits(usize),
    /// The blob is refused at this byte of it (TWKB).
    #[error("byte {0}: {1}")]
    Blob(u64, BlobReason),
    /// The blob is that of another geometry than a linestring.
    #[error("byte 0: no linestring")]
    NoLinestring,
    /// The blob ends before this byte, and the field has more.
    #[error("byte {0}: more than one blob")]
    MoreBlobs(usize),
}

impl HexReason {
    /// The reason in a few words, at most 31 bytes, without the place in a field. Takes no memory.
    #[tactic(auto, using(crate::proofs::CauseLemmas::short_reason))]
    pub fn text(self) -> &'static str
        ensures words { result.now ≡ reason_words self }
        ensures short { length (reason_words self) ≤ 31 }
    {
        match self {
            HexReason::NoColumn => "no such column",
            HexReason::ColumnTwice => "column twice",
            HexReason::FieldCount => "wrong number of fields",
            HexReason::MissingValue => "missing value",
            HexReason::BadPrecision => "bad precision",
            HexReason::Polyline(_, why) => why.text(),
            HexReason::NoDigits(_) => "no hexadecimal digits",
            HexReason::OddDigits(_) => "odd number of digits",
            HexReason::Blob(_, why) => why.text(),
            HexReason::NoLinestring => "no linestring",
            HexReason::MoreBlobs(_) => "more than one blob",
        }
    }
}

/// Why a conversion stopped.
#[derive(Clone, Copy, Debug, PartialEq, Eq, Error)]
#[error("{}", self.text())]
pub enum HexCause {
    /// A record of the CSV is refused. Records are counted from 1, which is the header.
    #[error("record {number}: {reason}")]
    Record { number: u64, reason: HexReason },
    /// A read failed.
    ReadDevice,
    /// A write or a flush failed, or a write took nothing.
    WriteDevice,
    /// Memory was refused.
    Memory,
    /// More than 2^62 bytes would be written, or the CSV has 2^64 - 2 records.
    TooLong,
}

impl HexCause {
    /// The cause in a few words, at most 31 bytes, without its place. Takes no memory.
    #[tactic(auto, using(crate::proofs::CauseLemmas::short_cause))]
    pub fn text(self) -> &'static str
        ensures words { result.now ≡ cause_words self }
        ensures short { length (cause_words self) ≤ 31 }
    {
        match self {
            HexCause::Record { reason, .. } => reason.text(),
            HexCause::ReadDevice => "read failed",
            HexCause::WriteDevice => "write failed",
            HexCause::Memory => "out of memory",
            HexCause::TooLong => "input or output too long",
        }
    }
}

/// Where a conversion stopped, and why.
#[derive(Clone, Copy, Debug, PartialEq, Eq, Error)]
#[error("{cause}")]
pub struct HexFault {
    /// The number of records, with that of the header, whose text the writer took whole.
    pub done: u64,
    /// The number of bytes that the writer took.
    pub sent: u64,
    /// Why the conversion stopped.
    pub cause: HexCause,
}
