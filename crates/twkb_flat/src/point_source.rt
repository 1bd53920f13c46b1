//! Sources of the points of a row.
ghost use Rattle.std.specs.Prelude.{◌≡◌, ◌++◌, List, OnOk, OnErr, IfErr};
ghost use Rattle.twkb_points.specs.Point.{Point};

use std::alloc::AllocError;
use twkb_points::{PointTail, Pt};

/// A source of the points of one row, which it appends directly to those of a flat form.
pub trait PointSource {
    /// Why it appends no points.
    type Fault;

    // It may append these points.
    ghost gives: { Self → List Point → Type 0 };

    // It may answer with this fault.
    ghost refuses: { Self → Self.Fault → Type 0 };

    /// Appends the points of the row to a list, through its borrowed tail. Takes memory for them.
    /// An `Err` is why there are none, and changes nothing.
    fn append_to<L: PointTail>(&self, points: &mut L) -> Result<(), Self::Fault>
        ensures given { OnOk result ((own : List Point)
            × (L.held points.new ≡ L.held points.old ++ own) × gives self.now own) }
        ensures refused { IfErr result (refuses self.now) }
        ensures same { OnErr result (L.held points.new ≡ L.held points.old) };

    /// The fault that means that memory was refused. Takes no memory.
    fn want_of_memory(&self) -> Self::Fault
        ensures { refuses self.now result };
}

// Points copied from a slice.
#[derive(Clone, Copy)]
pub(crate) struct Copied<'a> {
    pub(crate) points: &'a [Pt],
}

impl PointSource for Copied<'_> {
    ghost use Rattle.std.specs.Prelude.{◌≡◌, ⊤};

    type Fault = AllocError;

    ghost gives = { λ source own. own ≡ source.points.now };

    ghost refuses = { λ source fault. ⊤ };

    #[inline(always)]
    fn append_to<L: PointTail>(&self, points: &mut L) -> Result<(), AllocError> {
        // most rows have one point, or none
        match self.points {
            [] => Ok(()),
            [point] => points.put(*point),
            _ => points.put_all(self.points),
        }
    }

    #[inline(always)]
    fn want_of_memory(&self) -> AllocError {
        AllocError
    }
}
