//! Geometries as trees, and their counts, boxes and limits.
#![tactic(auto)]

mod copies;
mod counts;
mod equality;
mod extents;
mod fault;
mod geometry;
mod kind;
pub mod laws;
mod limits;
mod lists;
mod open_rows;
mod parts;
mod precisions;
pub mod row_checks;
mod row_place;
pub mod row_rules;
mod validity;
mod with_points;

pub use fault::GeomFault;
pub use geometry::{GREATEST_PRECISION, Geometry, LEAST_PRECISION, Members, Shape};
pub use kind::Kind;
pub use limits::{Limits, NEST_CAP, NEST_STANDARD, NODES_CAP, POINTS_CAP};
pub use lists::{Areas, Element, Elements, IdList, Ids, Lines, Pts};
pub use open_rows::OpenRow;
pub use parts::{id_at, own_parts};
pub use row_place::RowPlace;
