//! Canonical blobs of flat forms: their sizes, and their bytes to a sink.
#![tactic(auto)]

mod depths;
mod encoded_geometry;
mod gatherer;
mod header;
mod job;
pub mod laws;
mod lengths;
mod line_blob;
mod lone_row;
mod measured_rows;
mod measured_tree;
mod members;
mod piece;
mod placed_points;
mod point_blob;
mod points;
mod precisions;
mod rows;
mod sizes;
mod tails;
mod totals;
mod written_form;

pub use depths::Depths;
pub use encoded_geometry::{EncodeFault, encode, encode_styled};
pub use line_blob::write_line;
pub use measured_rows::{measure_flat, measure_into};
pub use measured_tree::measure;
pub use piece::Piece;
pub use point_blob::write_point;
pub use sizes::Sizes;
pub use twkb_grammar::Style;
pub use written_form::{write_flat, write_through};
