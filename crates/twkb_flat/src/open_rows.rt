//! The open rows of a form, found by the links of its nodes.
ghost use Rattle.std.specs.Prelude.{◌≡◌, ◌<◌, ◌≤◌, true, List, length, reverse, MatchOption};
ghost use Rattle.twkb_tree.specs.declared.open_rows.OpenRow.{OpenRow};
ghost use Rattle.twkb_tree.specs.Limits.{largest_limits};
ghost use Rattle.twkb_tree.specs.Rows.{AreValidRowsOfOne, row_points};
ghost use Rattle.twkb_tree.specs.Open.{AreOpen, IsOpenAt, open_count, row_place_at};
ghost use Rattle.twkb_flat.specs.Taking.{EndsInMember};

use crate::flat::Flat;
use crate::kept_nodes::{child_ids, open_at};
use twkb_tree::{Kind, OpenRow, RowPlace};

impl Flat {
    // The number of open rows: one for each depth from 0 to that of the last row; 0 without rows.
    pub(crate) fn levels(&self) -> u32
        ensures value { result ≡ open_count (reverse self.now) }
        ensures sound { AreValidRowsOfOne largest_limits self.now }
    {
        let count = self.node_count() as usize;
        if count == 0 {
            return 0;
        }
        self.row(count - 1).depth + 1
    }

    // The open row at this depth, which must be below `levels`: its kind, and whether its first
    // child has an id, `None` if it has no child.
    fn open_row(&self, depth: u32) -> OpenRow
        requires { depth < open_count (reverse self.now) }
        ensures { IsOpenAt depth (reverse self.now) result }
    {
        let at = open_at(&self.kept, depth);
        OpenRow {
            kind: self.kept[at].placed.row.kind,
            child_ids: child_ids(&self.kept, at),
        }
    }

    // Where a row at this depth would come after the form's rows: its parent, and how many rows and
    // points its geometry has before it. A row at depth 0 has no parent, and nothing before it. The
    // depth must be at most `levels`.
    pub(crate) fn row_place(&self, depth: u32) -> RowPlace
        requires { depth ≤ open_count (reverse self.now) }
        ensures { (os : List OpenRow) → AreOpen (reverse self.now) os
            → result ≡ row_place_at depth os (length self.now) (length (row_points self.now)) }
    {
        if depth == 0 {
            return RowPlace {
                depth,
                parent: None,
                nodes: 0,
                points: 0,
            };
        }
        RowPlace {
            depth,
            parent: Some(self.open_row(depth - 1)),
            nodes: self.node_count(),
            points: self.point_count(),
        }
    }

    /// Where a row at this depth would come after the form's rows: its parent, and how many rows
    /// and points its geometry has before it. A row at depth 0 has no parent, and nothing before
    /// it. `None` if the depth is more than one below the last row, or not 0 without rows. Takes no
    /// memory.
    pub fn place(&self, depth: u32) -> Option<RowPlace>
        ensures { MatchOption result (open_count (reverse self.now) < depth)
            (λ row_place. (os : List OpenRow) → AreOpen (reverse self.now) os → (depth ≤ length os)
            × (row_place ≡ row_place_at depth os (length self.now) (length (row_points self.now)))) }
    {
        if depth > self.levels() {
            return None;
        }
        Some(self.row_place(depth))
    }

    // Whether the last row is at this depth, and a member of a multipoint whose members all have
    // ids if `named`, and none if not.
    pub(crate) fn is_in_member(&self, depth: u32, named: bool) -> bool
        ensures { result ≡ true → EndsInMember depth named self.now }
    {
        let levels = self.levels();
        if levels < 2 || levels - 1 != depth {
            return false;
        }
        let parent = OpenRow {
            kind: Kind::MultiPoint,
            child_ids: Some(named),
        };
        let member = OpenRow {
            kind: Kind::Point,
            child_ids: None,
        };
        self.open_row(depth - 1) == parent && self.open_row(depth) == member
    }
}
