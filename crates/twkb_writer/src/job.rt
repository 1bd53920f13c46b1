//! The input of the writer: a flat form with its sizes, and a node of it.
use crate::sizes::Sizes;
use twkb_flat::{Flat, Node, NodeId};
use twkb_grammar::Style;

// A flat form, the style of its blob, and its sizes in that style.
#[derive(Clone, Copy)]
pub(crate) struct Job<'a> {
    pub(crate) flat: &'a Flat,
    pub(crate) style: Style,
    pub(crate) sizes: &'a Sizes,
}

// A node of the flat form, with its place.
#[derive(Clone, Copy)]
pub(crate) struct PlacedNode {
    pub(crate) id: NodeId,
    pub(crate) node: Node,
}
