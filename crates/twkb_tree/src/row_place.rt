//! The place of the next row among the rows so far.
use crate::open_rows::OpenRow;

/// The place of the next row: its depth and parent, and how many rows and points of its geometry
/// come before it.
#[derive(Clone, Copy, Debug, PartialEq, Eq)]
pub struct RowPlace {
    /// The depth of the row, 0 for a root.
    pub depth: u32,
    /// Its parent; `None` for a root.
    pub parent: Option<OpenRow>,
    /// The number of rows of its geometry before it.
    pub nodes: u32,
    /// The number of points of its geometry before it.
    pub points: u32,
}

impl RowPlace {
    ghost use Rattle.std.specs.Prelude.{◌≡◌, ◌<◌, ◌≤◌, length, MatchOption};
    ghost use Rattle.twkb_tree.specs.Open.{row_place_at};

    /// The place of a row at `depth`, by the open rows, the root first, and the numbers of rows and
    /// points from the last root on; a root has no parent, and both numbers are 0. `None` if
    /// `depth` is greater than the number of open rows. Takes no memory.
    pub fn at(depth: u32, rows: &[OpenRow], nodes: u32, points: u32) -> Option<RowPlace>
        ensures stands { MatchOption result (length rows.now < depth)
            (λ row_place. (depth ≤ length rows.now)
            × (row_place ≡ row_place_at depth rows.now nodes points)) }
    {
        if depth == 0 {
            return Some(RowPlace {
                depth,
                parent: None,
                nodes: 0,
                points: 0,
            });
        }
        let above = depth as usize - 1;
        if above >= rows.len() {
            return None;
        }
        let parent = rows[above];
        Some(RowPlace {
            depth,
            parent: Some(parent),
            nodes,
            points,
        })
    }
}
