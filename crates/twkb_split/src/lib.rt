//! A CSV in two: the stream of the blobs of one column, and the rest of its records.
#![tactic(auto)]

mod causes;
mod header;
mod last_flush;
pub mod laws;
mod packed_rest;
mod packing;
mod piece;
mod put;

pub use packed_rest::pack_rest;
pub use twkb_column::{
    Cause, Column, ColumnCause, ColumnFault, ColumnReason, Limits, Report, Style, Tap,
};
