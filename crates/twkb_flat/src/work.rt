//! Counters of work.
ghost use Rattle.std.specs.Prelude.{◌≡◌, ◌+◌, ◌<◌, ◌≤◌, ◌^◌};
ghost use Rattle.twkb_tree.specs.Tree.{saturated};

/// Counts of what was measured, and of the points and nodes that were read; each stops at 2^64 - 1.
#[derive(Clone, Copy, Debug, PartialEq, Eq)]
pub struct Work {
    /// The points of the flat forms that were measured.
    pub points: u64,
    /// The nodes of the flat forms that were measured.
    pub nodes: u64,
    /// The TWKB geometries of the flat forms that were measured: the rows that have their own
    /// header.
    pub entries: u64,
    /// The number of reads of points.
    pub point_reads: u64,
    /// The number of reads of nodes.
    pub node_reads: u64,
}

impl Work {
    /// Makes counters at 0. Takes no memory.
    pub fn new() -> Work
        ensures { result ≡ record { points = 0; nodes = 0; entries = 0; point_reads = 0; node_reads = 0 } }
    {
        Work {
            points: 0,
            nodes: 0,
            entries: 0,
            point_reads: 0,
            node_reads: 0,
        }
    }

    // Counts one read of a node.
    pub(crate) fn count_node(&mut self)
        ensures counted { self.new ≡ record self.old { node_reads = saturated (self.old.node_reads + 1) } }
        ensures no_fewer { self.old.node_reads ≤ self.new.node_reads }
    {
        self.node_reads = self.node_reads.saturating_add(1);
    }

    // Counts one read of a point.
    pub(crate) fn count_point(&mut self)
        ensures counted { self.new ≡ record self.old { point_reads = saturated (self.old.point_reads + 1) } }
        ensures no_fewer { self.old.point_reads ≤ self.new.point_reads }
    {
        self.point_reads = self.point_reads.saturating_add(1);
    }

    // Counts one read of a node and `points` reads of points.
    pub(crate) fn count_row(&mut self, points: u64)
        ensures { self.new ≡ record self.old {
          node_reads = saturated (self.old.node_reads + 1);
          point_reads = saturated (self.old.point_reads + points);
        } }
    {
        self.count_node();
        self.point_reads = self.point_reads.saturating_add(points);
    }
}

/// A lemma, which does nothing: both counts of reads are below 2^64, so that one to which nothing is
/// added stays as it is.
#[inline(always)]
pub fn reads_fit(work: Work)
    ensures nodes { work.node_reads < 2 ^ 64 }
    ensures points { work.point_reads < 2 ^ 64 }
{}
