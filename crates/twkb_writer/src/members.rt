//! The members of a node: the nodes one level deeper, up to the end of its subtree.
ghost use Rattle.std.specs.Prelude.{◌≡◌, length};
ghost use Rattle.twkb_flat.specs.Rows.{IsNode};
ghost use Rattle.twkb_writer.specs.Bytes.{ids_bytes, Put};
ghost use Rattle.twkb_writer.specs.Nodes.{members_of, Reads};

use crate::gatherer::Gatherer;
use crate::job::PlacedNode;
use twkb_flat::{Flat, NodeId, Work};
use twkb_io::Sink;

// How many members a node has, and whether their ids are written.
#[derive(Clone, Copy)]
pub(crate) struct MemberList {
    pub(crate) count: u32,
    pub(crate) named: bool,
}

// Puts the ids of the nodes one level below `at`, which must be a node of `flat`, in order, each as
// the shortest varint of its zigzag form, and nothing for a node without one. Counts at most as
// many reads of nodes as there are of these.
pub(crate) fn put_ids<S: Sink>(
    flat: &Flat,
    at: &PlacedNode,
    gatherer: &mut Gatherer<'_, '_, '_, S, S::Fault>,
    work: &mut Work,
)
    requires { IsNode flat.now at.now.id.0 at.now.node }
    ensures put { Put S.took S.refused gatherer.old (ids_bytes (members_of flat.now at.now)) gatherer.new }
    ensures reads { Reads work.old (length (members_of flat.now at.now)) 0 work.new }
{
    let end = at.node.next.0;
    let mut child = at.id.0 + 1;
    while child < end {
        let member = flat.node(NodeId(child), work);
        gatherer.put_id(member.row.id);
        child = member.next.0;
    }
}

// The number of nodes one level below `at`, which must be a node of `flat`. Counts at most as many
// reads of nodes as there are of these.
pub(crate) fn count_members(flat: &Flat, at: &PlacedNode, work: &mut Work) -> u32
    requires { IsNode flat.now at.now.id.0 at.now.node }
    ensures count { result ≡ length (members_of flat.now at.now) }
    ensures reads { Reads work.old (length (members_of flat.now at.now)) 0 work.new }
{
    let end = at.node.next.0;
    let mut child = at.id.0 + 1;
    let mut count = 0;
    while child < end {
        let member = flat.node(NodeId(child), work);
        count += 1;
        child = member.next.0;
    }
    count
}
