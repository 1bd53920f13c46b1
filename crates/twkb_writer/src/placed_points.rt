//! Points that are read one by one, by their places.
ghost use Rattle.std.specs.Prelude.{◌≡◌, ◌+◌, ◌≤◌, ◌<◌, List, length, slice_get, Some};
ghost use Rattle.twkb_points.specs.Point.{Point};
ghost use Rattle.twkb_tree.specs.Tree.{saturated};

use twkb_flat::{Flat, PointId, Work};
use twkb_points::{PointList, Pt};

// Points that are read one by one; each read is counted.
pub(crate) trait PlacedPoints {
    // The points.
    ghost points: { Self → List Point };

    // The point at place `at`, from 0, which must be below the number of points. Adds one to
    // `work.point_reads`. Takes no memory.
    fn point(&self, at: u32, work: &mut Work) -> Pt
        requires { at < length (points self.now) }
        ensures point { slice_get (points self.now) at ≡ Some result }
        ensures counted { work.new ≡ record work.old { point_reads = saturated (work.old.point_reads + 1) } }
        ensures no_fewer { work.old.point_reads ≤ work.new.point_reads };
}

impl PlacedPoints for Flat {
    ghost use Rattle.twkb_tree.specs.Rows.{row_points};

    ghost points = { λ flat. row_points flat };

    #[inline(always)]
    fn point(&self, at: u32, work: &mut Work) -> Pt {
        self.point(PointId(at), work)
    }
}

// The points of a list.
#[derive(Clone, Copy)]
pub(crate) struct ListedPoints<'a, L> {
    pub(crate) list: &'a L,
}

impl<L: PointList> PlacedPoints for ListedPoints<'_, L> {
    ghost points = { λ listed. L.points listed.list.now };

    #[inline(always)]
    fn point(&self, at: u32, work: &mut Work) -> Pt {
        work.point_reads = work.point_reads.saturating_add(1);
        self.list.point(at as usize)
    }
}

// The points of one row.
#[derive(Clone, Copy)]
pub(crate) struct RowPoints<'a> {
    pub(crate) points: &'a [Pt],
}

impl PlacedPoints for RowPoints<'_> {
    ghost points = { λ row. row.points.now };

    #[inline(always)]
    fn point(&self, at: u32, work: &mut Work) -> Pt {
        work.point_reads = work.point_reads.saturating_add(1);
        self.points[at as usize]
    }
}
