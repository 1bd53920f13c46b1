//! Rows of the flat form by their places, for calls inside this crate, which count no reads.
ghost use Rattle.std.specs.Prelude.{◌≡◌, ◌↔◌, ◌-◌, ◌<◌, ◌≤◌, ◌∷◌, List, length, take, drop, IsTrue};
ghost use Rattle.twkb_tree.specs.declared.limits.TheConstants.{NODES_CAP};
ghost use Rattle.twkb_tree.specs.Rows.{Row as TableRow};
ghost use Rattle.twkb_flat.specs.Rows.{row_with, row_depth_cap};
ghost use Rattle.twkb_flat.specs.Taking.{IsAt};

use crate::flat::Flat;
use crate::node::Row;
use twkb_points::Pt;

impl Flat {
    // Whether there is a row at place `at`, and it has this depth.
    pub(crate) fn is_at(&self, at: usize, depth: u32) -> bool
        ensures { IsTrue result ↔ IsAt depth (drop at self.now) }
    {
        if at >= self.node_count() as usize {
            return false;
        }
        self.row(at).depth == depth
    }

    // The row at this place in preorder, without its points. There must be such a row.
    pub(crate) fn row(&self, at: usize) -> Row
        requires { at < length self.now }
        ensures row { (row : TableRow) (rest : List TableRow) → drop at self.now ≡ row ∷ rest
            → row_with result row.points ≡ row }
        ensures shallow { result.depth ≤ row_depth_cap }
        ensures few { length self.now ≤ NODES_CAP }
    {
        self.kept[at].placed.row
    }

    // The points of the row at this place, without those of rows below it. There must be such a
    // row.
    pub(crate) fn own_points(&self, at: usize) -> &[Pt]
        requires { at < length self.now }
        ensures points { (row : TableRow) (rest : List TableRow) → drop at self.now ≡ row ∷ rest
            → result.now ≡ row.points }
        ensures few { length self.now ≤ NODES_CAP }
    {
        let placed = self.kept[at].placed;
        let first = placed.first as usize;
        let last = first + placed.points as usize;
        part(&self.points, first, last)
    }
}

// The points from place `first` up to, but not including, place `last`. `first` must be at most
// `last`, and `last` at most the number of points.
fn part(points: &[Pt], first: usize, last: usize) -> &[Pt]
    requires order { first ≤ last }
    requires within { last ≤ length points.now }
    ensures { result.now ≡ take (last - first) (drop first points.now) }
{
    &points[first..last]
}
