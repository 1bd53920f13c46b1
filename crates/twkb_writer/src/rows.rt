//! The rows of a flat form, written one after another.
ghost use Rattle.std.specs.Prelude.{◌≡◌, ◌+◌, ◌*◌, ◌≤◌, ◌<◌, ◌^◌, length, if◌then◌else◌};
ghost use Rattle.twkb_tree.specs.Rows.{row_points};
ghost use Rattle.twkb_flat.specs.Rows.{IsNode};
ghost use Rattle.twkb_writer.specs.Bytes.{way_start, entry_count, entries_in, Put};
ghost use Rattle.twkb_writer.specs.Nodes.{members_of, listed_of, counts_of, own_of, component_of, lead_of, bytes_of};
ghost use Rattle.twkb_writer.specs.Nodes.{Reads};

use crate::gatherer::Gatherer;
use crate::header::{has_no_body, put_header};
use crate::job::{Job, PlacedNode};
use crate::members::{MemberList, count_members, put_ids};
use crate::points::put_points;
use crate::sizes::Entry;
use twkb_flat::{Flat, NodeId, Work, reads_fit};
use twkb_io::Sink;
use twkb_points::Cursor;
use twkb_tree::Kind;

// Puts the count of members, and the ids of the node's members if `members.named` is true. `at`
// must be a node of `flat`. Counts at most as many reads of nodes as the node has members if ids
// are put, else none.
fn put_members<S: Sink>(
    flat: &Flat,
    at: &PlacedNode,
    members: MemberList,
    gatherer: &mut Gatherer<'_, '_, '_, S, S::Fault>,
    work: &mut Work,
)
    requires { IsNode flat.now at.now.id.0 at.now.node }
    ensures put { Put S.took S.refused gatherer.old (listed_of members flat.now at.now) gatherer.new }
    ensures reads { Reads work.old (if members.named then length (members_of flat.now at.now) else 0) 0 work.new }
{
    gatherer.put_number(members.count as u64);
    if !members.named {
        return;
    }
    put_ids(flat, at, gatherer, work);
}

// Puts the counts and ids of a node, which come before its points: nothing for a point, the count
// of points for a linestring or ring, else the count of members or rings and, if `members.named` is
// true, their ids. `at` must be a node of `flat`. Counts at most as many reads of nodes as the node
// has members if `members.named` is true, else none.
#[inline(always)]
fn put_counts<S: Sink>(
    flat: &Flat,
    at: &PlacedNode,
    members: MemberList,
    gatherer: &mut Gatherer<'_, '_, '_, S, S::Fault>,
    work: &mut Work,
)
    requires { IsNode flat.now at.now.id.0 at.now.node }
    ensures put { Put S.took S.refused gatherer.old (counts_of members flat.now at.now) gatherer.new }
    ensures reads { Reads work.old (if members.named then length (members_of flat.now at.now) else 0) 0 work.new }
{
    match at.node.row.kind {
        Kind::Point => {}
        Kind::Linestring | Kind::Ring => gatherer.put_number(at.node.points as u64),
        Kind::Polygon
        | Kind::MultiPoint
        | Kind::MultiLinestring
        | Kind::MultiPolygon
        | Kind::Collection => put_members(flat, at, members, gatherer, work),
    }
}

// Puts the bytes between a geometry's header and the points of its own row: its count, if its kind
// has one, and the ids of its members, if they have any; nothing if it has no body. `at` must be a
// node of `flat`. Counts at most as many reads of nodes as the node has members.
#[inline(always)]
fn put_own<S: Sink>(
    flat: &Flat,
    at: &PlacedNode,
    entry: &Entry,
    gatherer: &mut Gatherer<'_, '_, '_, S, S::Fault>,
    work: &mut Work,
)
    requires { IsNode flat.now at.now.id.0 at.now.node }
    ensures put { Put S.took S.refused gatherer.old (own_of entry.now flat.now at.now) gatherer.new }
    ensures reads { Reads work.old (length (members_of flat.now at.now)) 0 work.new }
{
    if has_no_body(at.node.points, entry) {
        return;
    }
    let members = MemberList {
        count: entry.members,
        named: entry.named,
    };
    put_counts(flat, at, members, gatherer, work);
}

// Puts the bytes of a component of a geometry before its points: its count of points or rings, or
// nothing for a point. `at` must be a node of `flat`. Counts at most as many reads of nodes as the
// node has rings.
#[inline(always)]
fn put_component<S: Sink>(
    flat: &Flat,
    at: &PlacedNode,
    gatherer: &mut Gatherer<'_, '_, '_, S, S::Fault>,
    work: &mut Work,
)
    requires { IsNode flat.now at.now.id.0 at.now.node }
    ensures put { Put S.took S.refused gatherer.old (component_of flat.now at.now) gatherer.new }
    ensures reads { Reads work.old (length (members_of flat.now at.now)) 0 work.new }
{
    let count = count_members(flat, at, work);
    let members = MemberList {
        count,
        named: false,
    };
    put_counts(flat, at, members, gatherer, work);
}

// Where the next row starts: the cursor, and the index of the next geometry's entry.
#[derive(Clone, Copy)]
struct RowStart {
    cursor: Cursor,
    entry: usize,
}

// Where the points of a row start, and the index of the entry after the row's: at (0, 0) and one
// entry further if the row has a precision, as a geometry itself has; else at `start`. The index
// must stay below 2^64.
#[inline(always)]
fn start_of_points(precision: Option<i8>, start: RowStart) -> RowStart
    requires { start.entry + entry_count precision < 2 ^ 64 }
    ensures at { result.cursor ≡ way_start precision start.cursor }
    ensures entry { result.entry ≡ start.entry + entry_count precision }
{
    match precision {
        Some(_) => RowStart {
            cursor: Cursor::origin(),
            entry: start.entry + 1,
        },
        None => start,
    }
}

// Puts the bytes of a row before its points: for a geometry itself, whose entry must be at index
// `entry`, its header, and its count and ids if it has them; for a component its count if it has
// one. `at` must be a node of `job.flat`. Counts at most as many reads of nodes as the node has
// members.
#[inline(always)]
fn put_lead<S: Sink>(
    job: &Job<'_>,
    at: &PlacedNode,
    entry: usize,
    gatherer: &mut Gatherer<'_, '_, '_, S, S::Fault>,
    work: &mut Work,
)
    requires node { IsNode job.now.flat.now at.now.id.0 at.now.node }
    requires room { entry + entry_count at.now.node.row.precision ≤ length job.now.sizes.now }
    ensures put { Put S.took S.refused gatherer.old (lead_of job.now entry at.now) gatherer.new }
    ensures reads { Reads work.old (length (members_of job.now.flat.now at.now)) 0 work.new }
{
    match at.node.row.precision {
        Some(precision) => {
            let sizes = job.sizes;
            let entry = sizes.entries[entry];
            put_header(job.style, &at.node, precision, &entry, gatherer);
            put_own(job.flat, at, &entry, gatherer, work);
        }
        None => put_component(job.flat, at, gatherer, work),
    }
}

// Puts the bytes of all rows of the form in preorder, in one pass, but begins no row after the sink
// has refused a put. There must be an entry for each geometry. Counts at most twice as many reads
// of nodes as there are nodes, and at most as many of points as there are points.
pub(crate) fn put_rows<S: Sink>(
    job: &Job<'_>,
    gatherer: &mut Gatherer<'_, '_, '_, S, S::Fault>,
    work: &mut Work,
)
    requires { entries_in job.now.flat.now ≤ length job.now.sizes.now }
    ensures put { Put S.took S.refused gatherer.old (bytes_of job.now) gatherer.new }
    ensures reads { Reads work.old (2 * length job.now.flat.now) (length (row_points job.now.flat.now)) work.new }
{
    // lets proofs know that there are fewer than 2^64 entries
    let _learnt = job.sizes.len();
    let flat = job.flat;
    let mut start = RowStart {
        cursor: Cursor::origin(),
        entry: 0,
    };
    for index in 0..flat.node_count() {
        if gatherer.fault.is_some() {
            return;
        }
        let id = NodeId(index);
        let node = flat.node(id, work);
        let at = PlacedNode { id, node };
        put_lead(job, &at, start.entry, gatherer, work);
        start = start_of_points(node.row.precision, start);
        reads_fit(*work);
        put_points(flat, &node, &mut start.cursor, gatherer, work);
    }
}
