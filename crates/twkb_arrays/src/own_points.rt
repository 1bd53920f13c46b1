//! The points of a row of an array, appended to those of a form.
ghost use Rattle.std.specs.Prelude.{◌≡◌, true};
ghost use Rattle.twkb_tree.specs.Refusal.{are_in_range};
ghost use Rattle.twkb_arrays.specs.Rows.{points_of};

use crate::judged_row::{OUT_OF_RANGE, are_in_range, refused};
use twkb_buffer::BufferPoint;
use twkb_flat::{PointSource, Stop};
use twkb_points::{PointList, PointTail, Pt};

// A row's own points.
#[derive(Clone, Copy)]
pub(crate) struct OwnPoints<'a> {
    pub(crate) own: &'a [BufferPoint],
}

// A row's own points, all in range.
#[derive(Clone, Copy)]
pub(crate) struct PointsInRange<'a> {
    pub(crate) own: &'a [BufferPoint],
    ghost in_range: { are_in_range (points_of own.now) ≡ true },
}

impl PointList for PointsInRange<'_> {
    ghost points = { λ list. points_of list.own.now };

    #[inline(always)]
    fn count(&self) -> usize {
        self.own.len()
    }

    #[inline(always)]
    fn point(&self, at: usize) -> Pt {
        let coordinates = &self.own[at];
        Pt::at(coordinates.x, coordinates.y)
    }
}

impl PointSource for OwnPoints<'_> {
    ghost use Rattle.std.specs.Prelude.{◌≡◌};
    ghost use Rattle.twkb_points.specs.Point.{AreInRange};
    ghost use Rattle.twkb_flat.specs.Taking.{IfRefused};
    ghost use Rattle.twkb_arrays.specs.Rows.{points_of};
    ghost use Rattle.twkb_arrays.specs.JudgedRow.{AreOutOfRange};

    type Fault = Stop<u32>;

    ghost gives = { λ source ps. (ps ≡ points_of source.own.now) × AreInRange ps };

    ghost refuses = { λ source. IfRefused (AreOutOfRange (points_of source.own.now)) };

    // The range is tested before all points are copied: in two short loops, each of which takes
    // several points at once.
    #[inline(always)]
    fn append_to<L: PointTail>(&self, points: &mut L) -> Result<(), Stop<u32>> {
        if !are_in_range(self.own) {
            return Err(refused(OUT_OF_RANGE));
        }
        match points.put_each(&PointsInRange { own: self.own }) {
            Ok(()) => Ok(()),
            Err(_) => Err(Stop::Memory),
        }
    }

    #[inline(always)]
    fn want_of_memory(&self) -> Stop<u32> {
        Stop::Memory
    }
}
