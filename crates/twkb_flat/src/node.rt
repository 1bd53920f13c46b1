//! Rows and nodes of the flat form, and their places.
use twkb_tree::Kind;

/// A row of the flat form, without its points (profile).
#[derive(Clone, Copy, Debug, PartialEq, Eq)]
pub struct Row {
    /// The depth of the row, 0 for the root.
    pub depth: u32,
    /// The kind of the row.
    pub kind: Kind,
    /// Its id, if it has one.
    pub id: Option<i64>,
    /// The number of decimals of its coordinates, -8 to 7, if the row is a geometry itself.
    pub precision: Option<i8>,
}

/// The place of a node in preorder, from 0.
#[derive(Clone, Copy, Debug, PartialEq, Eq)]
pub struct NodeId(pub u32);

/// The place of a point among all points, from 0.
#[derive(Clone, Copy, Debug, PartialEq, Eq)]
pub struct PointId(pub u32);

/// A row of the flat form, with the places of its points and of the node after its subtree.
#[derive(Clone, Copy, Debug, PartialEq, Eq)]
pub struct Node {
    /// The row.
    pub row: Row,
    /// The node after its subtree; the number of nodes if there is none.
    pub next: NodeId,
    /// The first of the row's own points; if it has none, the number of points of the rows before
    /// it.
    pub first: PointId,
    /// The number of points of the row itself.
    pub points: u32,
}
