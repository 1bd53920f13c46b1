//! Whole conversions between tables and streams.
#![tactic(auto)]

mod blob_text;
mod causes;
mod collection;
mod last_flush;
pub mod laws;
mod listed_stream;
mod packed_table;
mod report;
mod sent_geometries;
mod span_bytes;
mod span_line;
mod span_texts;
mod version;

pub use collection::unpack_collection;
pub use listed_stream::{headers, show, unpack, unpack_geojson};
pub use packed_table::{pack, pack_counted, pack_styled};
pub use report::{Cause, ConvertFault, Report};
pub use twkb_blob::BlobReason;
pub use twkb_flat::Work;
pub use twkb_io::Tap;
pub use twkb_polyline::PolyReason;
pub use twkb_table::RowReason;
pub use twkb_tree::Limits;
pub use twkb_writer::Style;
pub use version::VERSION;
