//! The sizes of a flat form, measured in one pass over its rows from the last to the first.
ghost use Rattle.std.specs.Prelude.{◌≡◌, ◌+◌, ◌++◌, ◌*◌, ◌<◌, ◌≤◌, ℕ, List, length};
ghost use Rattle.std.specs.Prelude.{slice_index_or, IfOk, OnOk};
ghost use Rattle.twkb_points.specs.Point.{Point};
ghost use Rattle.twkb_tree.specs.declared.limits.TheConstants.{POINTS_CAP};
ghost use Rattle.twkb_tree.specs.Rows.{row_points};
ghost use Rattle.twkb_flat.specs.Rows.{row_depth_cap};
ghost use Rattle.twkb_grammar.specs.declared.style.Style.{Style as InStyle};
ghost use Rattle.twkb_writer.specs.declared.depths.TheConstants.{DEPTHS};
ghost use Rattle.twkb_writer.specs.declared.tails.TailTotals.{TailTotals as PointsAhead};
ghost use Rattle.twkb_writer.specs.Sizes.{weights_cap, sums_cap, AreSizes};
ghost use Rattle.twkb_writer.specs.Totals.{blank, IsSmall, tail_of};
ghost use Rattle.twkb_writer.specs.MeasuredRows.{option_list, tail_after, TakenRow, Counted, Measures};
ghost use Rattle.twkb_writer.specs.Nodes.{own_points_in, ReadsExactly};

use crate::depths::Depths;
use crate::lone_row::measure_one;
use crate::placed_points::PlacedPoints;
use crate::sizes::{Entry, Sizes};
use crate::tails::TailTotals;
use std::alloc::{AllocError, Global};
use twkb_flat::{Flat, Node, NodeId, Work, reads_fit};
use twkb_grammar::Style;

// Returns `tail`, the totals of the points after a node's own in its geometry, with the node's own
// before them. The node's points must be among `all`, which must have at most 2^24 points, and
// `tail.bytes` must be at most 2^30. Counts as many reads of points as the node has own points.
#[inline(always)]
pub(crate) fn take_points<P: PlacedPoints>(
    all: &P,
    node: &Node,
    tail: TailTotals,
    work: &mut Work,
) -> TailTotals
    requires within { node.now.first.0 + node.now.points ≤ length (P.points all.now) }
    requires few { length (P.points all.now) ≤ POINTS_CAP }
    requires room { tail.bytes ≤ weights_cap }
    ensures value { (ahead : List Point) → tail ≡ tail_of ahead
        → result ≡ tail_of (own_points_in node.now (P.points all.now) ++ ahead) }
    ensures most { result.bytes ≤ tail.bytes + 20 * node.now.points }
    ensures reads { ReadsExactly work.old 0 node.now.points work.new }
{
    reads_fit(*work);
    // a copy, so that the loop keeps the count in a register: `work` may be in the caller's memory
    let mut counted = *work;
    let totals = take_each_point(all, node, tail, &mut counted);
    work.point_reads = counted.point_reads;
    totals
}

// The loop of `take_points`.
#[inline(always)]
fn take_each_point<P: PlacedPoints>(
    all: &P,
    node: &Node,
    tail: TailTotals,
    work: &mut Work,
) -> TailTotals
    requires within { node.now.first.0 + node.now.points ≤ length (P.points all.now) }
    requires few { length (P.points all.now) ≤ POINTS_CAP }
    requires room { tail.bytes ≤ weights_cap }
    ensures value { (ahead : List Point) → tail ≡ tail_of ahead
        → result ≡ tail_of (own_points_in node.now (P.points all.now) ++ ahead) }
    ensures most { result.bytes ≤ tail.bytes + 20 * node.now.points }
    ensures reads { ReadsExactly work.old 0 node.now.points work.new }
{
    reads_fit(*work);
    if node.points == 0 {
        return tail;
    }
    let last = node.first.0 + (node.points - 1);
    let point = all.point(last, work);
    let mut points = tail.begun(point);
    for pair in 0..(node.points - 1) / 2 {
        let place = last - 2 * pair;
        let next = all.point(place - 1, work);
        let point = all.point(place - 2, work);
        points = points.with_first_two(point, next);
    }
    if node.points % 2 == 1 {
        return points.tail();
    }
    let first = all.point(node.first.0, work);
    points.tail().with_first(first)
}

// Adds a row, which must be a geometry itself with this precision, to the totals at its depth,
// clears those at the depth below, and returns the row's entry. `points` are the totals of the
// geometry's points, without those of collection members. The depth must be at most 34, and no
// total may be above 2^30 rows or 2^40 bytes.
#[inline(always)]
fn take_geometry(
    style: Style,
    node: &Node,
    precision: i8,
    points: &TailTotals,
    by_depth: &mut Depths,
) -> Entry
    requires deep { node.now.row.depth ≤ row_depth_cap }
    requires small { (k : ℕ) → k < DEPTHS → IsSmall (slice_index_or by_depth.old k blank) }
    requires points { points.now.bytes ≤ sums_cap }
    requires whole { node.now.row.precision ≡ Some precision }
    ensures { TakenRow style node.now points.now by_depth.old by_depth.new (Some result) }
{
    let depth = node.row.depth as usize;
    let below = by_depth.at(depth + 1);
    let entry = below.entry_for(style, node.row.kind, precision, node.points, points);
    let others = *by_depth.at(depth);
    let own = others.with_geometry(style, entry.size, precision, node.row.id, below, points);
    by_depth.put(depth, own);
    entry
}

// Adds a row, which must be a component of a geometry, to the totals at its depth, and clears those
// at the depth below. The depth must be at most 34, and no total may be above 2^30 rows or 2^40
// bytes.
#[inline(always)]
fn take_component(node: &Node, by_depth: &mut Depths)
    requires deep { node.now.row.depth ≤ row_depth_cap }
    requires small { (k : ℕ) → k < DEPTHS → IsSmall (slice_index_or by_depth.old k blank) }
    requires component { node.now.row.precision ≡ None }
    ensures { (style : InStyle) (points : PointsAhead) → TakenRow style node.now points by_depth.old by_depth.new None }
{
    let depth = node.row.depth as usize;
    let others = *by_depth.at(depth);
    let below = by_depth.at(depth + 1);
    let own = others.with_component(node.row.kind, node.points, node.row.id, below);
    by_depth.put(depth, own);
}

// Adds a row to the totals at its depth, clears those at the depth below, and returns the row's
// entry if it is a geometry itself, else `None`. `points` are the totals of the points from the row
// on up to the next geometry. The depth must be at most 34, and no total may be above 2^30 rows or
// 2^40 bytes.
#[inline(always)]
pub(crate) fn take_row(
    style: Style,
    node: &Node,
    points: &TailTotals,
    by_depth: &mut Depths,
) -> Option<Entry>
    requires deep { node.now.row.depth ≤ row_depth_cap }
    requires small { (k : ℕ) → k < DEPTHS → IsSmall (slice_index_or by_depth.old k blank) }
    requires points { points.now.bytes ≤ sums_cap }
    ensures { TakenRow style node.now points.now by_depth.old by_depth.new result }
{
    match node.row.precision {
        Some(precision) => Some(take_geometry(style, node, precision, points, by_depth)),
        None => {
            take_component(node, by_depth);
            None
        }
    }
}

// Appends an entry, or nothing if it is `None`. Takes memory if the vector has no room for it or,
// before the first entry, for `most` entries.
#[inline(always)]
pub(crate) fn keep(
    entries: &mut Vec<Entry>,
    entry: Option<Entry>,
    most: usize,
) -> Result<(), AllocError>
    ensures { OnOk result (entries.new.items ≡ entries.old.items ++ option_list entry) }
{
    let Some(entry) = entry else {
        return Ok(());
    };
    if entries.is_empty() {
        entries.reserve(most)?;
    }
    entries.extend_from_slice(&[entry])
}

// The totals of points that the row before this one goes on with: `points`, which begin with this
// row's, if this row is a component; those of no points if it is a geometry itself.
pub(crate) fn before_row(node: &Node, points: TailTotals) -> TailTotals
    ensures { result ≡ tail_after node.now.row.precision points }
{
    match node.row.precision {
        Some(_) => TailTotals::none(),
        None => points,
    }
}

// Measures a flat form in a style, row by row from the last to the first, and replaces the entries
// and the depths. On `Ok` as many reads of nodes and of points were counted as there are. Takes
// memory for the entries if the vector has too little room; after an `Err` they are incomplete.
fn measure_rows(
    flat: &Flat,
    style: Style,
    depths: &mut Depths,
    entries: &mut Vec<Entry>,
    work: &mut Work,
) -> Result<(), AllocError>
    ensures sizes { OnOk result (AreSizes style flat.now entries.new.items) }
    ensures reads { OnOk result (ReadsExactly work.old (length flat.now) (length (row_points flat.now)) work.new) }
{
    let total = flat.node_count();
    depths.clear();
    entries.clear();
    reads_fit(*work);
    let mut tail = TailTotals::none();
    for back in 0..total {
        let id = NodeId(total - 1 - back);
        let node = flat.node(id, work);
        let points = take_points(flat, &node, tail, work);
        let entry = take_row(style, &node, &points, depths);
        tail = before_row(&node, points);
        keep(entries, entry, id.0 as usize + 1)?;
    }
    entries.reverse();
    Ok(())
}

// Measures a flat form in a style and replaces the entries. `depths` may hold the totals of any
// rows, and may be overwritten. On `Ok` as many reads of nodes and of points were counted as there
// are. Takes memory for the entries if the vector has too little room; after an `Err` they are
// incomplete.
#[inline(always)]
fn measure_entries(
    flat: &Flat,
    style: Style,
    depths: &mut Depths,
    entries: &mut Vec<Entry>,
    work: &mut Work,
) -> Result<(), AllocError>
    ensures sizes { OnOk result (AreSizes style flat.now entries.new.items) }
    ensures reads { OnOk result (ReadsExactly work.old (length flat.now) (length (row_points flat.now)) work.new) }
{
    if flat.node_count() == 1 {
        return measure_one(flat, style, entries, work);
    }
    measure_rows(flat, style, depths, entries, work)
}

// Adds these numbers to the points, nodes and entries that `work` counts as measured, each up to
// 2^64 - 1.
#[inline(always)]
pub(crate) fn count_measured(points: u32, nodes: u32, entries: usize, work: &mut Work)
    ensures { Measures work.old points nodes entries work.new }
{
    work.points = work.points.saturating_add(points as u64);
    work.nodes = work.nodes.saturating_add(nodes as u64);
    work.entries = work.entries.saturating_add(entries as u64);
}

/// Measures a flat form in a style and replaces the sizes: one entry for each TWKB geometry in
/// preorder, none if there is no node. `depths` may hold the totals of any rows, and may be
/// overwritten. Counts as many reads of nodes and of points as there are, and the nodes, points and
/// entries as measured; after an `Err` the entries and the counts are incomplete. Takes memory for
/// the entries if they have too little room; room for one for each node is enough.
pub fn measure_into(
    flat: &Flat,
    style: Style,
    depths: &mut Depths,
    sizes: &mut Sizes,
    work: &mut Work,
) -> Result<(), AllocError>
    ensures sizes { OnOk result (AreSizes style flat.now sizes.new) }
    ensures work { OnOk result (Counted work.old (length (row_points flat.now)) (length flat.now)
        (length sizes.new) work.new) }
{
    measure_entries(flat, style, depths, &mut sizes.entries, work)?;
    count_measured(
        flat.point_count(),
        flat.node_count(),
        sizes.entries.len(),
        work,
    );
    Ok(())
}

/// Measures a flat form in a style, and returns its sizes: one entry for each TWKB geometry in
/// preorder, none if there is no node. Counts as many reads of nodes and of points as there are,
/// and the nodes, points and entries as measured; after an `Err` the counts are incomplete. Takes
/// memory for the entries alone.
pub fn measure_flat(
    alloc: Global,
    flat: &Flat,
    style: Style,
    work: &mut Work,
) -> Result<Sizes, AllocError>
    ensures sizes { IfOk result (λ sizes. AreSizes style flat.now sizes) }
    ensures work { IfOk result (λ sizes. Counted work.old (length (row_points flat.now))
        (length flat.now) (length sizes) work.new) }
{
    let mut depths = Depths::new();
    let mut sizes = Sizes::new(alloc);
    measure_into(flat, style, &mut depths, &mut sizes, work)?;
    Ok(sizes)
}
