//! The sizes of a flat form of one row, measured without totals by depth.
ghost use Rattle.std.specs.Prelude.{◌≡◌, ◌≤◌, ◌↔◌, ◌∷◌, [], ℤ, length, Some, IsTrue, OnOk};
ghost use Rattle.twkb_tree.specs.declared.limits.TheConstants.{POINTS_CAP};
ghost use Rattle.twkb_tree.specs.Limits.{largest_limits};
ghost use Rattle.twkb_tree.specs.Rows.{row_points, AreValidRowsOfOne};
ghost use Rattle.twkb_tree.specs.declared.kind.Kind.TheVariants.{Point as PointKind};
ghost use Rattle.twkb_flat.specs.Rows.{IsNode};
ghost use Rattle.twkb_grammar.specs.declared.style.Style.{Style as InStyle};
ghost use Rattle.twkb_writer.specs.Totals.{blank, entry_for, tail_of};
ghost use Rattle.twkb_writer.specs.Nodes.{ReadsExactly};
ghost use Rattle.twkb_writer.specs.Sizes.{AreSizes};

use crate::lengths::signed_len;
use crate::measured_rows::{keep, take_points};
use crate::sizes::Entry;
use crate::tails::TailTotals;
use crate::totals::RowTotals;
use std::alloc::AllocError;
use twkb_flat::{Flat, Node, NodeId, Work, reads_fit};
use twkb_grammar::Style;
use twkb_points::{Cursor, Pt};
use twkb_tree::Kind;

// The entry, in either style, of a geometry that is this point alone; it has no box.
fn point_entry(point: Pt) -> Entry
    ensures { (style : InStyle) (precision : ℤ) → result ≡ entry_for style PointKind precision 1
        blank (tail_of (point ∷ [])) }
{
    let (x, y) = Cursor::origin().delta(point);
    Entry {
        size: signed_len(x) + signed_len(y),
        bounds: None,
        members: 0,
        named: false,
    }
}

// Whether the node is that of a point that is not empty.
fn is_one_point(node: &Node) -> bool
    ensures { IsTrue result ↔ ((node.now.row.kind ≡ PointKind) × (node.now.points ≡ 1)) }
{
    matches!(node.row.kind, Kind::Point) && node.points == 1
}

// The entry, in a style, of the geometry of a form of one row, of any kind; the node and the
// precision must be those of the row. Counts as many reads of points as the row has points.
fn row_entry(flat: &Flat, style: Style, node: &Node, precision: i8, work: &mut Work) -> Entry
    requires few { length (row_points flat.now) ≤ POINTS_CAP }
    requires one { length flat.now ≡ 1 }
    requires node { IsNode flat.now 0 node.now }
    requires whole { node.now.row.precision ≡ Some precision }
    requires valid { AreValidRowsOfOne largest_limits flat.now }
    ensures sizes { AreSizes style flat.now (result ∷ []) }
    ensures reads { ReadsExactly work.old 0 node.now.points work.new }
{
    let points = take_points(flat, node, TailTotals::none(), work);
    RowTotals::blank().entry_for(style, node.row.kind, precision, node.points, &points)
}

// Replaces all entries by this one, in place if there is just one. Takes memory for it if the
// vector has no room; after an `Err` there are no entries.
#[inline(always)]
fn keep_alone(entries: &mut Vec<Entry>, entry: Entry) -> Result<(), AllocError>
    ensures { OnOk result (entries.new.items ≡ entry ∷ []) }
{
    if entries.len() == 1 {
        entries[0] = entry;
        return Ok(());
    }
    entries.clear();
    keep(entries, Some(entry), 1)
}

// Measures a flat form, which must have one row, in a style, and replaces the entries by its entry.
// Counts one read of a node, and as many reads of points as there are points. Takes memory for the
// entry if the vector has no room; after an `Err` there are no entries.
#[inline(always)]
pub(crate) fn measure_one(
    flat: &Flat,
    style: Style,
    entries: &mut Vec<Entry>,
    work: &mut Work,
) -> Result<(), AllocError>
    requires one { length flat.now ≡ 1 }
    requires valid { AreValidRowsOfOne largest_limits flat.now }
    ensures sizes { OnOk result (AreSizes style flat.now entries.new.items) }
    ensures reads { ReadsExactly work.old 1 (length (row_points flat.now)) work.new }
{
    reads_fit(*work);
    let node = flat.node(NodeId(0), work);
    let Some(precision) = node.row.precision else {
        unreachable!()
    };
    if is_one_point(&node) {
        let point = flat.point(node.first, work);
        return keep_alone(entries, point_entry(point));
    }
    let entry = row_entry(flat, style, &node, precision, work);
    keep_alone(entries, entry)
}
