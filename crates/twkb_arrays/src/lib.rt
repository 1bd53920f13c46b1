//! Rows and points in arrays: read from blobs, and written as blobs, with no text between.
#![tactic(auto)]

mod appended_row;
mod blob_room;
mod copied_form;
mod end_room;
mod filled_arrays;
mod judged_row;
pub mod laws;
mod lone_row;
mod own_points;
mod row;
pub mod samples;
mod sent_blobs;
mod status;
mod taken_geometries;
mod writer;
mod written_arrays;

pub use filled_arrays::{BufferCounts, read_arrays};
pub use row::{BufferRow, NO_PRECISION};
pub use written_arrays::write_arrays;
