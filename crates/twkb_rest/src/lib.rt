//! Columns of CSVs, from streams of linestrings.
#![tactic(auto)]

mod column_stream;
mod fault;
mod field_text;
mod join_fault;
mod joined_rest;
pub mod laws;
mod line;
mod next_line;
mod rest_records;

pub use column_stream::unpack_column;
pub use fault::{LineReason, UnpackCause, UnpackFault};
pub use join_fault::{JoinCause, JoinFault, RestReason};
pub use joined_rest::unpack_rest;
