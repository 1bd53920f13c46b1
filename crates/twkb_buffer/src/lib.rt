//! Conversions from a buffer to a buffer.
#![tactic(auto)]

mod binary64;
mod column_job;
mod column_numbers;
mod filled_column;
mod filled_slice;
mod filler;
mod fractions;
pub mod laws;
mod lengths;
mod moderate_sizes;
mod point;
mod polylines;
mod reason_numbers;
mod reason_texts;
mod report;
mod rounded_numbers;
pub mod samples;
mod scale;

pub use column_job::{ColumnConversion, JobCause, JobFault};
pub use column_numbers::{column_number, line_number};
pub use filled_column::fill_column;
pub use filled_slice::fill;
pub use lengths::measure;
pub use point::BufferPoint;
pub use polylines::{as_coordinates, as_point, fill_points, fill_polyline};
pub use reason_numbers::{blob_number, row_number};
pub use reason_texts::{put_reason, put_version};
pub use report::BufferReport;
pub use rounded_numbers::round_numbers;
pub use twkb_column::Column;
pub use twkb_conversions::Conversion;
