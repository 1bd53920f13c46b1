//! The points of a row, written as differences.
ghost use Rattle.std.specs.Prelude.{◌≡◌, ◌+◌, ◌≤◌, ◌<◌, ◌^◌, length};
ghost use Rattle.twkb_writer.specs.Bytes.{way_bytes, way_end, Put};
ghost use Rattle.twkb_writer.specs.Nodes.{own_points_in, ReadsExactly};

use crate::gatherer::Gatherer;
use crate::placed_points::PlacedPoints;
use twkb_flat::{Node, Work, reads_fit};
use twkb_io::Sink;
use twkb_points::Cursor;

// Puts the differences in x and in y from the cursor to a node's first own point, and on from each
// to the next, and moves the cursor to the last. The node's points must be among `all`, at places
// below 2^32 - 1. Counts as many reads of points as the node has own points.
#[inline(always)]
pub(crate) fn put_points<P: PlacedPoints, S: Sink>(
    all: &P,
    node: &Node,
    cursor: &mut Cursor,
    gatherer: &mut Gatherer<'_, '_, '_, S, S::Fault>,
    work: &mut Work,
)
    requires within { node.now.first.0 + node.now.points ≤ length (P.points all.now) }
    requires fits { node.now.first.0 + node.now.points < 2 ^ 32 }
    ensures put { Put S.took S.refused gatherer.old
        (way_bytes cursor.old (own_points_in node.now (P.points all.now))) gatherer.new }
    ensures moved { cursor.new ≡ way_end cursor.old (own_points_in node.now (P.points all.now)) }
    ensures reads { ReadsExactly work.old 0 node.now.points work.new }
{
    reads_fit(*work);
    // a copy, so that the loop keeps the count in a register: `work` may be in the caller's memory
    let mut counted = *work;
    put_each_point(all, node, cursor, gatherer, &mut counted);
    work.point_reads = counted.point_reads;
}

// The loop of `put_points`.
#[inline(always)]
fn put_each_point<P: PlacedPoints, S: Sink>(
    all: &P,
    node: &Node,
    cursor: &mut Cursor,
    gatherer: &mut Gatherer<'_, '_, '_, S, S::Fault>,
    work: &mut Work,
)
    requires within { node.now.first.0 + node.now.points ≤ length (P.points all.now) }
    requires fits { node.now.first.0 + node.now.points < 2 ^ 32 }
    ensures put { Put S.took S.refused gatherer.old
        (way_bytes cursor.old (own_points_in node.now (P.points all.now))) gatherer.new }
    ensures moved { cursor.new ≡ way_end cursor.old (own_points_in node.now (P.points all.now)) }
    ensures reads { ReadsExactly work.old 0 node.now.points work.new }
{
    reads_fit(*work);
    let first = node.first.0;
    let end = first + node.points;
    let mut index = first;
    while end - index >= 2 {
        let to = all.point(index, work);
        let next = all.point(index + 1, work);
        gatherer.put_steps(cursor, to, next);
        index += 2;
    }
    if index < end {
        let to = all.point(index, work);
        gatherer.put_step(cursor, to);
    }
}
