//! Points and members that are appended to the last row of a flat form.
ghost use Rattle.std.specs.Prelude.{◌≡◌, ◌↔◌, ◌+◌, ◌<◌, ◌≤◌, ◌++◌, ◌∷◌, [], length, OnOk};
ghost use Rattle.std.specs.Prelude.{OnErr, IsTrue, true, is_some};
ghost use Rattle.twkb_tree.specs.declared.limits.TheConstants.{POINTS_CAP, NODES_CAP};
ghost use Rattle.twkb_tree.specs.Rows.{row_points, plain_row};
ghost use Rattle.twkb_tree.specs.RowGrowth.{EndsInLine, point_added, points_added};
ghost use Rattle.twkb_flat.specs.Taking.{EndsInMember};

use crate::flat::Flat;
use crate::kept_nodes::{KeptNode, PlacedRow, count_points, ends_in_line, link, put_point};
use crate::node::Row;
use crate::room::{make_room, put_reserved};
use crate::row_test::{MOST_POINTS, leaves_room, look};
use std::alloc::AllocError;
use twkb_points::Pt;
use twkb_tree::Kind;

impl Flat {
    /// Whether `add_point` may append a point: the last row is that of a linestring or a ring, and
    /// all rows together have fewer than 2^24 points. Takes no memory.
    #[inline(always)]
    pub fn takes_point(&self) -> bool
        ensures { IsTrue result ↔ (EndsInLine self.now × (length (row_points self.now) < POINTS_CAP)) }
    {
        if !ends_in_line(&self.kept) {
            return false;
        }
        self.points.len() < MOST_POINTS as usize
    }

    /// If true, `add_points` may append `count` points: the last row is that of a linestring or a
    /// ring, and all rows together then have at most 2^24 points. `false` does not say the
    /// contrary. Takes no memory.
    pub fn takes_points(&self, count: u64) -> bool
        ensures line { result ≡ true → EndsInLine self.now }
        ensures room { result ≡ true → length (row_points self.now) + count ≤ POINTS_CAP }
    {
        self.takes_point() && count <= MOST_POINTS - u64::from(self.point_count())
    }

    /// Appends a point to the last row, which must be that of a linestring or a ring; all rows
    /// together must have fewer than 2^24 points. Takes memory; an `Err` changes nothing.
    #[inline(always)]
    pub fn add_point(&mut self, point: Pt) -> Result<(), AllocError>
        requires line { EndsInLine self.old }
        requires room { length (row_points self.old) < POINTS_CAP }
        ensures added { OnOk result (self.new ≡ point_added point self.old) }
        ensures same { OnErr result (self.new ≡ self.old) }
    {
        if let Err(refused) = self.points.push(point) {
            return Err(refused.into());
        }
        count_points(&mut self.kept, 1);
        Ok(())
    }

    /// Appends two points to the last row, which must be that of a linestring or a ring; all rows
    /// together must then have at most 2^24 points. It tests once for memory, and takes it if there
    /// is no room for both. An `Err` changes nothing.
    #[inline(always)]
    pub fn add_two(&mut self, first: Pt, second: Pt) -> Result<(), AllocError>
        requires line { EndsInLine self.old }
        requires room { length (row_points self.old) + 2 ≤ POINTS_CAP }
        ensures added { OnOk result (self.new ≡ point_added second (point_added first self.old)) }
        ensures same { OnErr result (self.new ≡ self.old) }
    {
        make_room(&mut self.points, 2)?;
        self.points.push_reserved(first);
        self.points.push_reserved(second);
        count_points(&mut self.kept, 2);
        Ok(())
    }

    /// Appends points to the last row, which must be that of a linestring or a ring; all rows
    /// together must then have at most 2^24 points. It tests once for memory, and takes it if there
    /// is no room for all. An `Err` changes nothing.
    #[inline(always)]
    pub fn add_points(&mut self, points: &[Pt]) -> Result<(), AllocError>
        requires line { EndsInLine self.old }
        requires room { length (row_points self.old) + length points.now ≤ POINTS_CAP }
        ensures added { OnOk result (self.new ≡ points_added points.now self.old) }
        ensures same { OnErr result (self.new ≡ self.old) }
    {
        look(points);
        make_room(&mut self.points, points.len())?;
        put_reserved(&mut self.points, points);
        count_points(&mut self.kept, points.len() as u32);
        Ok(())
    }

    /// If true, `add_member` may append `count` members: the last row is at this depth, a member of
    /// a multipoint whose members all have ids if `named` and none if not, and there are then at
    /// most 2^20 rows and 2^24 points. `false` does not say the contrary. Takes no memory.
    pub fn takes_members(&self, depth: u32, named: bool, count: u64) -> bool
        ensures ends { result ≡ true → EndsInMember depth named self.now }
        ensures nodes { result ≡ true → length self.now + count ≤ NODES_CAP }
        ensures points { result ≡ true → length (row_points self.now) + count ≤ POINTS_CAP }
    {
        if !leaves_room(self.node_count(), self.point_count(), count) {
            return false;
        }
        self.is_in_member(depth, named)
    }

    /// Appends a point with this id as one more member of a multipoint. The last row must be a
    /// member of it, at this depth, and have an id exactly if this one has; there must be fewer
    /// than 2^20 rows and 2^24 points. Takes memory; an `Err` changes nothing.
    #[inline(always)]
    pub fn add_member(&mut self, depth: u32, id: Option<i64>, point: Pt) -> Result<(), AllocError>
        requires member { EndsInMember depth (is_some id) self.old }
        requires nodes { length self.old < NODES_CAP }
        requires points { length (row_points self.old) < POINTS_CAP }
        ensures added { OnOk result (self.new ≡ self.old ++ plain_row depth Kind.Point id (point ∷ []) ∷ []) }
        ensures same { OnErr result (self.new ≡ self.old) }
    {
        let next = self.kept.len() as u32;
        let last = next - 1;
        let row = Row {
            depth,
            kind: Kind::Point,
            id,
            precision: None,
        };
        let placed = PlacedRow {
            row,
            first: self.points.len() as u32,
            points: 1,
        };
        // the subtree of the last node ends here, and the new member has the same parent
        let node = KeptNode {
            placed,
            next: self.kept[last as usize].next,
        };
        if let Err(refused) = put_point(&mut self.kept, &mut self.points, node, point) {
            return Err(refused);
        }
        link(&mut self.kept, last, next);
        Ok(())
    }
}
