//! GeoJSON of geometries: the text of each, written from its rows.
#![tactic(auto)]

mod coordinate;
mod digits;
mod flat_text;
mod geometry_text;
pub mod laws;
mod lists;
mod members;
mod near;
mod piece;
mod positions;
mod simple_text;
mod tables;

pub use coordinate::push_coordinate;
pub use flat_text::put_geojson;
pub use geometry_text::put_geometry;
pub use lists::{put_areas, put_lists};
pub use positions::put_positions;
