//! Geometries, their limits and their flat forms: the types that callers of the formats pass and
//! receive.
#![tactic(auto)]

pub use twkb_flat::{Flat, Node, NodeId, PointId, PointSource, Row, Rows, Stop, Work};
pub use twkb_tree::{
    Areas, GeomFault, Geometry, IdList, Ids, Kind, Limits, Lines, Members, Pts, Shape,
};
