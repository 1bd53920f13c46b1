//! Tests of the rows that may come next: their depth, their ranges and the caps.
ghost use Rattle.std.specs.Prelude.{◌≡◌, ◌≤◌, ◌+◌, true, List, length};
ghost use Rattle.twkb_points.specs.Point.{AreInRange};
ghost use Rattle.twkb_tree.specs.Rows.{Row as TableRow};
ghost use Rattle.twkb_tree.specs.declared.open_rows.OpenRow.{OpenRow};
ghost use Rattle.twkb_tree.specs.Open.{is_next};

use twkb_points::Pt;
use twkb_tree::{NODES_CAP, POINTS_CAP};

// The most rows of the largest geometry.
const MOST_NODES: u64 = NODES_CAP as u64;

// The most points of the largest geometry.
pub(crate) const MOST_POINTS: u64 = POINTS_CAP as u64;

// Whether a row at this depth is a root (depth 0) exactly if no row is open (`levels` is 0).
pub(crate) fn is_next(levels: u32, depth: u32) -> bool
    ensures { (os : List OpenRow) (r : TableRow) → length os ≡ levels → r.depth ≡ depth → result ≡ is_next os r }
{
    if levels == 0 { depth == 0 } else { depth > 0 }
}

// Changes nothing. Its contract says that the coordinates of the points are from -2^62 to 2^62 - 1.
pub(crate) fn look(points: &[Pt])
    ensures { AreInRange points.now }
{
    for point in points {
        // lets proofs know that the point is in range
        let _learnt = point.x();
    }
}

// Whether `count` more rows of one point each keep the caps of 2^20 rows and 2^24 points, after
// `nodes` rows with `points` points.
pub(crate) fn leaves_room(nodes: u32, points: u32, count: u64) -> bool
    ensures nodes { result ≡ true → nodes + count ≤ NODES_CAP }
    ensures points { result ≡ true → points + count ≤ POINTS_CAP }
{
    count <= MOST_NODES
        && u64::from(nodes) <= MOST_NODES - count
        && u64::from(points) <= MOST_POINTS - count
}
