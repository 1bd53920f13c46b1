//! Why a column of a CSV is not packed.
ghost use Rattle.std.specs.Prelude.{◌≡◌, ◌≤◌, length};
ghost use Rattle.twkb_column.specs.Causes.{cause_of, cause_words, reason_words, record_number};

use thiserror::Error;
use twkb_convert::{Cause, RowReason};

/// Why a record of a CSV is refused before the row that it names is judged, in the order of the
/// checks (profile).
#[derive(Clone, Copy, Debug, PartialEq, Eq, Error)]
#[error("{}", self.text())]
pub enum ColumnReason {
    /// No field of the header is the name of the column, or that of the column of ids, or there is
    /// no header.
    NoSuchColumn,
    /// More than one field of the header is the name of the column, or that of the column of ids.
    ColumnTwice,
    /// The record has another number of fields than the header.
    FieldCount,
    /// The field is a word that other programs write for a missing value, and is not named as one.
    MissingValue,
}

impl ColumnReason {
    /// The reason in a few words, at most 22 bytes. Takes no memory.
    pub fn text(self) -> &'static str
        ensures words { result.now ≡ reason_words self }
        ensures short { length (reason_words self) ≤ 22 }
    {
        match self {
            ColumnReason::NoSuchColumn => "no such column",
            ColumnReason::ColumnTwice => "column twice",
            ColumnReason::FieldCount => "wrong number of fields",
            ColumnReason::MissingValue => "missing value",
        }
    }
}

/// Why packing a column stopped.
#[derive(Clone, Copy, Debug, PartialEq, Eq, Error)]
pub enum ColumnCause {
    /// A record of the CSV is refused. Records are counted from 1, which is the header.
    #[error("record {number}: {reason}")]
    Csv { number: u64, reason: ColumnReason },
    /// The row that a record of the CSV names is refused, and its number is that record's; or the
    /// cause is another one of `pack`.
    #[error("{0}")]
    Pack(Cause),
}

impl ColumnCause {
    /// The cause in a few words, at most 31 bytes, without its place. Takes no memory.
    pub fn text(self) -> &'static str
        ensures words { result.now ≡ cause_words self }
        ensures short { length (cause_words self) ≤ 31 }
    {
        match self {
            ColumnCause::Csv { reason, .. } => reason.text(),
            ColumnCause::Pack(cause) => cause.text(),
        }
    }

    // The cause to report for a cause of `pack` over the table that a CSV names: if a record is
    // refused that stands for a refused one of the CSV, that one's. With ids, a row comes before
    // those of the CSV's records.
    pub(crate) fn of(has_ids: bool, cause: Cause) -> ColumnCause
        ensures { result ≡ cause_of has_ids cause }
    {
        let Cause::Row { number, reason } = cause else {
            return ColumnCause::Pack(cause);
        };
        let number = record_number(has_ids, number);
        let (number, reason) = match reason {
            RowReason::BadHeader => (number, ColumnReason::NoSuchColumn),
            RowReason::BadKind => (1, ColumnReason::ColumnTwice),
            RowReason::FieldCount => (number, ColumnReason::FieldCount),
            RowReason::BadDepth => (number, ColumnReason::MissingValue),
            _ => return ColumnCause::Pack(Cause::Row { number, reason }),
        };
        ColumnCause::Csv { number, reason }
    }
}

// The number of the record of a CSV that names the row with this number.
fn record_number(has_ids: bool, number: u64) -> u64
    ensures { result ≡ record_number has_ids number }
{
    if has_ids {
        number.saturating_sub(1).max(1)
    } else {
        number
    }
}

/// Where packing a column stopped, and why.
#[derive(Clone, Copy, Debug, PartialEq, Eq, Error)]
#[error("{cause}")]
pub struct ColumnFault {
    /// The number of geometries whose blobs the writer took whole.
    pub done: u64,
    /// The number of bytes that the writer took.
    pub sent: u64,
    /// The number of records of the CSV that the geometries in `done` are, with its header; 0 if
    /// there is no geometry.
    pub taken: u64,
    /// Why packing stopped.
    pub cause: ColumnCause,
}
