//! The kept nodes of a flat form.
ghost use Rattle.std.specs.Prelude.{◌≡◌, ◌<◌, ◌≤◌, ◌+◌, ◌↔◌, ◌++◌, ◌∷◌, [], IsTrue, ℕ, List};
ghost use Rattle.std.specs.Prelude.{length, map, take, slice_set, slice_get, OnOk, OnErr, IfErr};
ghost use Rattle.twkb_points.specs.Point.{Point};
ghost use Rattle.twkb_tree.specs.declared.limits.TheConstants.{POINTS_CAP};
ghost use Rattle.twkb_tree.specs.Open.{ids_by};
ghost use Rattle.twkb_flat.specs.KeptNodes.{placed_of, depths_in, links_in, listed, last_longer, LastHasRoom, IsPut};
ghost use Rattle.twkb_flat.specs.KeptNodes.{IsUnlinked, IsLineKind, LastIsLine};
ghost use Rattle.twkb_flat.specs.Rows.{levels, OpenPlace, Linked, AreClosed, MayFollow};

use crate::node::{NodeId, Row};
use crate::point_source::PointSource;
use std::alloc::AllocError;
use twkb_points::{PointTail, Pt};
use twkb_tree::Kind;

// A row, and the place and number of its own points.
#[derive(Clone, Copy)]
pub(crate) struct PlacedRow {
    pub(crate) row: Row,
    pub(crate) first: u32,
    pub(crate) points: u32,
}

// A row with the place of its points, and a link. As long as all nodes after it are below it, the
// node is open, and the link is the place of its parent, or 0 for the root; else the link is the
// place after the node's subtree. So the link of an open node is at most its own place.
#[derive(Clone, Copy)]
pub(crate) struct KeptNode {
    pub(crate) placed: PlacedRow,
    pub(crate) next: NodeId,
}

// Appends a node to `kept`, as it is given, and a point to `points`. Takes memory; after an `Err`
// neither is appended.
#[inline(always)]
pub(crate) fn put_point(
    kept: &mut Vec<KeptNode>,
    points: &mut Vec<Pt>,
    node: KeptNode,
    point: Pt,
) -> Result<(), AllocError>
    ensures node { OnOk result (kept.new.items ≡ kept.old.items ++ node ∷ []) }
    ensures point { OnOk result (points.new.items ≡ points.old.items ++ point ∷ []) }
    ensures no_node { OnErr result (kept.new.items ≡ kept.old.items) }
    ensures no_point { OnErr result (points.new.items ≡ points.old.items) }
{
    let before = points.len();
    if let Err(refused) = points.put(point) {
        return Err(refused);
    }
    let Ok(()) = kept.push(node) else {
        points.truncate(before);
        return Err(AllocError);
    };
    Ok(())
}

// Appends the points of the source to `points`, and a node of this row with their place and number,
// and with link 0, to `kept`. `points` must have at most 2^24 points, also with any that the source
// may give. Takes memory. An `Err` is the fault of the source, or its `want_of_memory`, and changes
// nothing.
#[inline(always)]
pub(crate) fn put_row<S: PointSource>(
    kept: &mut Vec<KeptNode>,
    points: &mut Vec<Pt>,
    row: Row,
    source: &S,
) -> Result<(), S::Fault>
    requires few { length points.old.items ≤ POINTS_CAP }
    requires room { (own : List Point) → S.gives source.now own → length points.old.items + length own ≤ POINTS_CAP }
    ensures put { OnOk result ((own : List Point)
        × IsPut row own kept.old.items kept.new.items points.old.items points.new.items
        × S.gives source.now own) }
    ensures refused { IfErr result (S.refuses source.now) }
    ensures no_node { OnErr result (kept.new.items ≡ kept.old.items) }
    ensures no_point { OnErr result (points.new.items ≡ points.old.items) }
{
    let first = points.len() as u32;
    if let Err(fault) = source.append_to(points) {
        return Err(fault);
    }
    let placed = PlacedRow {
        row,
        first,
        points: points.len() as u32 - first,
    };
    let Ok(()) = kept.push(KeptNode {
        placed,
        next: NodeId(0),
    }) else {
        points.truncate(first as usize);
        return Err(source.want_of_memory());
    };
    Ok(())
}

// Sets the link of the node at place `at` to the place `to`. There must be a node at `at`.
#[inline(always)]
pub(crate) fn link(kept: &mut [KeptNode], at: u32, to: u32)
    requires { at < length kept.old }
    ensures placed_rows { map placed_of kept.new ≡ map placed_of kept.old }
    ensures links { links_in kept.new ≡ slice_set (links_in kept.old) at to }
{
    let kept_node = &mut kept[at as usize];
    kept_node.next = NodeId(to);
}

// Closes the open nodes at this depth and below it, among those before place `next`: sets their
// links to `next`. Returns the place of the open node one level above this depth. `next` must be
// from 1 to the number of nodes, the nodes before it must be linked, and `depth` must be from 1 to
// one more than that of the node before `next`.
#[inline(always)]
fn close_from(kept: &mut [KeptNode], depth: u32, next: u32) -> u32
    requires some { 0 < next }
    requires within { next ≤ length kept.old }
    requires linked { Linked (take next (depths_in kept.old)) (take next (links_in kept.old)) }
    requires place { MayFollow (take next (depths_in kept.old)) depth }
    ensures placed_rows { map placed_of kept.new ≡ map placed_of kept.old }
    ensures links { AreClosed (take next (depths_in kept.old)) (take next (links_in kept.old))
        (links_in kept.new) depth next }
    ensures above { (e : ℕ) → depth ≡ e + 1 → OpenPlace (take next (depths_in kept.old)) e result }
{
    let mut at = next - 1;
    while kept[at as usize].placed.row.depth >= depth {
        let up = kept[at as usize].next.0;
        link(kept, at, next);
        at = up;
    }
    at
}

// Links the last node, which must be at place `at`, to its parent, or to 0 if it is the root, and
// closes the nodes whose subtrees end before it. The nodes before it must be linked. Its depth must
// be 0 for the first node, else from 1 to one more than that of the node before it.
#[inline(always)]
pub(crate) fn link_last(kept: &mut [KeptNode], at: u32)
    requires { IsUnlinked kept.old at }
    ensures placed_rows { map placed_of kept.new ≡ map placed_of kept.old }
    ensures links { Linked (depths_in kept.old) (links_in kept.new) }
{
    if at == 0 {
        // the root has no parent
        return link(kept, 0, 0);
    }
    let depth = kept[at as usize].placed.row.depth;
    let parent = close_from(kept, depth, at);
    link(kept, at, parent);
}

// The place of the open node at this depth, which must be at most the depth of the last node. There
// must be a node, and all nodes must be linked.
pub(crate) fn open_at(kept: &[KeptNode], depth: u32) -> usize
    requires linked { Linked (depths_in kept.now) (links_in kept.now) }
    requires within { depth < levels (depths_in kept.now) }
    ensures { OpenPlace (depths_in kept.now) depth result }
{
    let mut at = kept.len() - 1;
    while kept[at].placed.row.depth > depth {
        at = kept[at].next.0 as usize;
    }
    at
}

// Whether the node after this place has an id; `None` if there is no such node. There must be a
// node at this place. The node after an open one is its first child.
pub(crate) fn child_ids(kept: &[KeptNode], at: usize) -> Option<bool>
    requires { at < length kept.now }
    ensures { (points : List Point) → result ≡ ids_by (slice_get (listed (map placed_of kept.now) points) (at + 1)) }
{
    let next = at + 1;
    if next == kept.len() {
        return None;
    }
    Some(kept[next].placed.row.id.is_some())
}

// Adds `more` to the number of points of the last node. There must be a node, and the sum must be
// below 2^32.
#[inline(always)]
pub(crate) fn count_points(kept: &mut [KeptNode], more: u32)
    requires some { 0 < length kept.old }
    requires room { LastHasRoom more kept.old }
    ensures placed_rows { map placed_of kept.new ≡ last_longer more (map placed_of kept.old) }
    ensures links { links_in kept.new ≡ links_in kept.old }
{
    let last = kept.len() - 1;
    let kept_node = &mut kept[last];
    kept_node.placed.points += more;
}

// Whether the kind is a linestring or a ring.
fn is_line(kind: Kind) -> bool
    ensures { IsTrue result ↔ IsLineKind kind }
{
    match kind {
        Kind::Linestring | Kind::Ring => true,
        _ => false,
    }
}

// Whether there is a node, and the last one is that of a linestring or a ring.
#[inline(always)]
pub(crate) fn ends_in_line(kept: &[KeptNode]) -> bool
    ensures { IsTrue result ↔ LastIsLine kept.now }
{
    let count = kept.len();
    if count == 0 {
        return false;
    }
    is_line(kept[count - 1].placed.row.kind)
}
