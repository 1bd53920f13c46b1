//! The flat form of one geometry.
ghost use Rattle.std.specs.Prelude.{◌≡◌, ◌↔◌, ◌+◌, ◌<◌, ◌≤◌, ◌++◌, ◌∷◌, [], List, length};
ghost use Rattle.std.specs.Prelude.{slice_get, Some, None, OnOk, OnErr, IfErr, IsTrue};
ghost use Rattle.twkb_points.specs.Point.{Point};
ghost use Rattle.twkb_tree.specs.Tree.{saturated, IsPrecision};
ghost use Rattle.twkb_tree.specs.Limits.{largest_limits};
ghost use Rattle.twkb_tree.specs.Rows.{row_points, whole_row, AreValidRowsOfOne};
ghost use Rattle.twkb_tree.specs.Admits.{Continues};
ghost use Rattle.twkb_flat.specs.Rows.{IsNode, row_with};

use crate::kept_nodes::{KeptNode, PlacedRow, link_last, put_point, put_row};
use crate::node::{Node, NodeId, PointId, Row};
use crate::point_source::{Copied, PointSource};
use crate::row_test::{is_next, look};
use crate::work::Work;
use std::alloc::{AllocError, Global};
use std::marker::Model;
use std::mem::swap;
use twkb_points::Pt;
use twkb_tree::row_checks::row_refusal;
use twkb_tree::{Kind, Limits};

/// One geometry within `Limits::largest()`, or none: its rows in preorder, and the points of all
/// rows, one row after another. A contract sees the list of its rows, each with its own points.
#[derive(Drop)]
pub struct Flat {
    // The nodes in preorder.
    pub(crate) kept: Vec<KeptNode>,
    // The points of all rows.
    pub(crate) points: Vec<Pt>,
}

impl Model for Flat {
    ghost use Rattle.std.specs.Prelude.{List, map};
    ghost use Rattle.twkb_tree.specs.Rows.{Row as TableRow};

    ghost Value = { List TableRow };

    ghost use Rattle.twkb_flat.specs.KeptNodes.{IsFlat, listed, placed_of};

    ghost view = { λ f. listed (map placed_of f.kept.items) f.points.items };

    ghost invariant = { λ f. IsFlat f.kept.items f.points.items };
}

impl Flat {
    /// Makes a form without rows. Takes no memory.
    pub fn new(alloc: Global) -> Flat
        ensures { result ≡ [] }
    {
        Flat {
            kept: Vec::new(alloc),
            points: Vec::new(alloc),
        }
    }

    /// Drops all rows, and keeps their memory for later rows. Takes no memory.
    pub fn clear(&mut self)
        ensures { self.new ≡ [] }
    {
        self.kept.clear();
        self.points.clear();
    }

    /// The number of nodes, one for each row, 0 to 2^20. Takes no memory.
    pub fn node_count(&self) -> u32
        ensures value { result ≡ length self.now }
        ensures sound { AreValidRowsOfOne largest_limits self.now }
    {
        self.kept.len() as u32
    }

    /// The number of points of all rows together, 0 to 2^24. Takes no memory.
    pub fn point_count(&self) -> u32
        ensures { result ≡ length (row_points self.now) }
    {
        self.points.len() as u32
    }

    /// Whether the form has no row. Takes no memory.
    pub fn is_empty(&self) -> bool
        ensures value { IsTrue result ↔ (self.now ≡ []) }
        ensures sound { AreValidRowsOfOne largest_limits self.now }
    {
        self.kept.is_empty()
    }

    /// Whether `push` may append the row with these points: it is a root exactly if there is no row
    /// yet, fits under its parent by the rules for rows of a table, and the geometry stays within
    /// `Limits::largest()` (profile). Takes no memory.
    // Inlined in its callers, which push the row that they ask about.
    #[inline(always)]
    pub fn admits(&self, row: &Row, points: &[Pt]) -> bool
        ensures { IsTrue result ↔ Continues largest_limits self.now (row_with row.now points.now) }
    {
        look(points);
        let levels = self.levels();
        if !is_next(levels, row.depth) {
            return false;
        }
        if row.depth > levels {
            return false;
        }
        let row_place = self.row_place(row.depth);
        let limits = Limits::largest();
        let count = points.len();
        row_refusal(&limits, &row_place, row.kind, row.id, row.precision, count).is_none()
    }

    /// Replaces all rows by one root with the points of the vector; `admits` must be true for it in
    /// a form without rows. The vector is then empty, and has the memory of the form's old points.
    /// Takes memory for the row alone. After an `Err` there are no rows, and the vector is as it
    /// was.
    #[inline(always)]
    pub fn begin(&mut self, root: Row, points: &mut Vec<Pt>) -> Result<(), AllocError>
        requires { Continues largest_limits [] (row_with root points.old.items) }
        ensures begun { OnOk result (self.new ≡ row_with root points.old.items ∷ []) }
        ensures taken { OnOk result (points.new.items ≡ []) }
        ensures none { OnErr result (self.new ≡ []) }
        ensures same { OnErr result (points.new.items ≡ points.old.items) }
    {
        self.clear();
        let placed = PlacedRow {
            row: root,
            first: 0,
            points: points.len() as u32,
        };
        if let Err(refused) = self.kept.push(KeptNode {
            placed,
            next: NodeId(0),
        }) {
            return Err(refused.into());
        }
        swap(&mut self.points, points);
        Ok(())
    }

    /// Replaces all rows by the only row of a point geometry at this point, with this precision,
    /// which must be from -8 to 7. Takes memory; after an `Err` there are no rows.
    #[inline(always)]
    pub fn begin_point(&mut self, precision: i8, point: Pt) -> Result<(), AllocError>
        requires { IsPrecision precision }
        ensures begun { OnOk result (self.new ≡ whole_row 0 Kind.Point None precision (point ∷ []) ∷ []) }
        ensures none { OnErr result (self.new ≡ []) }
    {
        self.clear();
        let root = Row {
            depth: 0,
            kind: Kind::Point,
            id: None,
            precision: Some(precision),
        };
        let placed = PlacedRow {
            row: root,
            first: 0,
            points: 1,
        };
        let node = KeptNode {
            placed,
            next: NodeId(0),
        };
        if let Err(refused) = put_point(&mut self.kept, &mut self.points, node, point) {
            return Err(refused);
        }
        Ok(())
    }

    /// Appends a row with these points, for which `admits` must be true. Takes memory; an `Err`
    /// changes nothing.
    #[inline(always)]
    pub fn push(&mut self, row: Row, points: &[Pt]) -> Result<(), AllocError>
        requires { Continues largest_limits self.old (row_with row points.now) }
        ensures pushed { OnOk result (self.new ≡ self.old ++ row_with row points.now ∷ []) }
        ensures same { OnErr result (self.new ≡ self.old) }
    {
        self.push_from(row, &Copied { points })
    }

    /// Appends a row whose points the source appends directly to those of the form. `admits` must
    /// be true for the row with any points that the source may give. Takes memory. An `Err` is the
    /// fault of the source, or its `want_of_memory`, and changes nothing.
    #[inline(always)]
    pub fn push_from<S: PointSource>(&mut self, row: Row, source: &S) -> Result<(), S::Fault>
        requires { (own : List Point) → S.gives source.now own → Continues largest_limits self.old (row_with row own) }
        ensures pushed { OnOk result ((own : List Point)
            × (self.new ≡ self.old ++ row_with row own ∷ []) × S.gives source.now own) }
        ensures refused { IfErr result (S.refuses source.now) }
        ensures same { OnErr result (self.new ≡ self.old) }
    {
        let next = self.kept.len() as u32;
        if let Err(fault) = put_row(&mut self.kept, &mut self.points, row, source) {
            return Err(fault);
        }
        link_last(&mut self.kept, next);
        Ok(())
    }

    /// The node at this place in preorder; there must be such a node. Adds one to
    /// `work.node_reads`, up to 2^64 - 1. Takes no memory.
    pub fn node(&self, id: NodeId, work: &mut Work) -> Node
        requires { id.0 < length self.now }
        ensures node { IsNode self.now id.0 result }
        ensures counted { work.new ≡ record work.old { node_reads = saturated (work.old.node_reads + 1) } }
        ensures no_fewer { work.old.node_reads ≤ work.new.node_reads }
    {
        work.count_node();
        let kept_node = self.kept[id.0 as usize];
        let next = if kept_node.next.0 <= id.0 {
            self.node_count()
        } else {
            kept_node.next.0
        };
        Node {
            row: kept_node.placed.row,
            next: NodeId(next),
            first: PointId(kept_node.placed.first),
            points: kept_node.placed.points,
        }
    }

    /// The point at this place among the points of all rows; there must be such a point. Adds one
    /// to `work.point_reads`, up to 2^64 - 1. Takes no memory.
    pub fn point(&self, id: PointId, work: &mut Work) -> Pt
        requires { id.0 < length (row_points self.now) }
        ensures point { slice_get (row_points self.now) id.0 ≡ Some result }
        ensures counted { work.new ≡ record work.old { point_reads = saturated (work.old.point_reads + 1) } }
        ensures no_fewer { work.old.point_reads ≤ work.new.point_reads }
    {
        work.count_point();
        self.points[id.0 as usize]
    }
}
