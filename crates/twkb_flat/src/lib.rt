//! The flat form of a geometry: its rows in preorder, and all their points in one list.
#![tactic(auto)]

mod built_geometry;
mod components;
mod flat;
mod geometry_rows;
mod kept_nodes;
mod last_row;
pub mod laws;
mod node;
mod open_rows;
mod point_source;
mod room;
mod row_test;
mod rows;
mod stop;
mod uncounted_rows;
mod work;

pub use flat::Flat;
pub use geometry_rows::own_row;
pub use node::{Node, NodeId, PointId, Row};
pub use point_source::PointSource;
pub use rows::Rows;
pub use stop::Stop;
pub use work::{Work, reads_fit};
