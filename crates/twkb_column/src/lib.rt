//! A column of a CSV, packed into a stream.
#![tactic(auto)]

mod fault;
pub mod laws;
mod packed_column;

pub use fault::{ColumnCause, ColumnFault, ColumnReason};
pub use packed_column::pack_column;
pub use twkb_convert::{Cause, Limits, Report, Style, Tap};
pub use twkb_csv::Column;
