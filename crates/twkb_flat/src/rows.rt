//! The rows of an owned form, each with its points as a slice.
ghost use Rattle.std.specs.Prelude.{◌≡◌, ◌+◌, ◌<◌, Some, length, slice_get};
ghost use Rattle.twkb_tree.specs.Tree.{saturated};
ghost use Rattle.twkb_flat.specs.Rows.{row_with};

use crate::flat::Flat;
use crate::node::{NodeId, Row};
use crate::work::Work;
use twkb_points::Pt;

/// A form that gives the points of a row as a slice, and counts each point once however often the
/// caller reads it. It owns the form, so it can't be made from a `&Flat`.
#[derive(Drop)]
pub struct Rows {
    /// The form.
    pub flat: Flat,
}

impl Rows {
    /// The row at this place in preorder, and the points of that row; there must be such a row.
    /// Adds one to `work.node_reads`, and the number of the points to `work.point_reads`. Takes no
    /// memory.
    pub fn row_at(&self, id: NodeId, work: &mut Work) -> (Row, &[Pt])
        requires { id.0 < length self.now.flat }
        ensures row { slice_get self.now.flat id.0 ≡ Some (row_with result.0 result.1.now) }
        ensures counted { work.new
            ≡ record work.old {
              node_reads = saturated (work.old.node_reads + 1);
              point_reads = saturated (work.old.point_reads + length result.1.now);
            } }
    {
        let at = id.0 as usize;
        let row = self.flat.row(at);
        let points = self.flat.own_points(at);
        work.count_row(points.len() as u64);
        (row, points)
    }
}
