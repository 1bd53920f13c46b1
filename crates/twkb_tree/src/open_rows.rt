//! Open rows: the state that a reader of rows keeps for each depth.
ghost use Rattle.std.specs.Prelude.{◌≡◌, None};
ghost use Rattle.twkb_tree.specs.Open.{first_answer};

use crate::kind::Kind;

/// The last row at its depth, which may be the parent of the next row. A reader keeps one for each
/// depth, the root first.
#[derive(Clone, Copy, Debug, PartialEq, Eq)]
pub struct OpenRow {
    /// The row's kind.
    pub kind: Kind,
    /// Whether the first child has an id; `None` before the first child.
    pub child_ids: Option<bool>,
}

impl OpenRow {
    /// The open row after one more child, with an id or without; only the first child changes it.
    /// Takes no memory.
    pub fn with_child(self, has_id: bool) -> OpenRow
        ensures { result ≡ record { kind = self.kind; child_ids = first_answer self.child_ids has_id } }
    {
        OpenRow {
            kind: self.kind,
            child_ids: Some(self.child_ids.unwrap_or(has_id)),
        }
    }
}

impl Default for OpenRow {
    /// A point's row without children, which fills the unused places of a list. Takes no memory.
    fn default() -> OpenRow
        ensures { result ≡ record { kind = Kind.Point; child_ids = None } }
    {
        OpenRow {
            kind: Kind::Point,
            child_ids: None,
        }
    }
}
