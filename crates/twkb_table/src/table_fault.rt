//! The reasons for which a table is not read further.
use crate::reason::RowReason;
use thiserror::Error;

/// Why a reader of tables gave no geometry.
#[derive(Clone, Copy, Debug, PartialEq, Eq, Error)]
pub enum TableFault {
    /// Memory was refused for the rows or the tree of a geometry.
    #[error("out of memory")]
    Memory,
    /// `csv` returned an error: the device failed, or memory was refused.
    #[error("the table could not be read")]
    Source,
    /// The table has a record with number 2^32.
    #[error("too many records")]
    TooManyRecords,
    /// An earlier call returned an error.
    #[error("the table was refused before")]
    Spent,
    /// The record with this number is refused. Records are counted from 1, which is the header.
    #[error("record {number}: {reason}")]
    At { number: u64, reason: RowReason },
}
