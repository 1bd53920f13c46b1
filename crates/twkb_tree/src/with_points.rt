//! The number of points and the bounding box of lists of points, lines or polygons.
ghost use Rattle.std.specs.Prelude.{◌≡◌, List, length, flat_map};
ghost use Rattle.twkb_points.specs.Point.{Point};
ghost use Rattle.twkb_points.specs.Extent.{extent};
ghost use Rattle.twkb_tree.specs.Tree.{flatten, saturated};

use crate::lists::{Areas, Lines, Pts};
use twkb_points::{Bounds, merged};

// A value that has points, in order.
pub(crate) trait WithPoints {
    // Its points, in order.
    ghost points_of: { Self → List Point };

    // The number of points, at most `u64::MAX`.
    fn points(&self) -> u64
        ensures { result ≡ saturated (length (points_of self.now)) };

    // The smallest box that holds the points; `None` if there are none.
    fn bounds(&self) -> Option<Bounds>
        ensures { result ≡ extent (points_of self.now) };
}

impl WithPoints for Pts {
    ghost points_of = { λ ps. ps };

    fn points(&self) -> u64 {
        self.as_slice().len() as u64
    }

    fn bounds(&self) -> Option<Bounds> {
        Bounds::around(self.as_slice())
    }
}

impl WithPoints for Lines {
    ghost points_of = { flatten };

    fn points(&self) -> u64 {
        total_points(self.as_slice())
    }

    fn bounds(&self) -> Option<Bounds> {
        joined_bounds(self.as_slice())
    }
}

impl WithPoints for Areas {
    ghost points_of = { flat_map flatten };

    fn points(&self) -> u64 {
        total_points(self.as_slice())
    }

    fn bounds(&self) -> Option<Bounds> {
        joined_bounds(self.as_slice())
    }
}

// The number of points of all items, at most `u64::MAX`.
fn total_points<T: WithPoints>(items: &[T]) -> u64
    ensures { result ≡ saturated (length (flat_map T.points_of items.now)) }
{
    let mut total = 0u64;
    for item in items {
        total = total.saturating_add(item.points());
    }
    total
}

// The smallest box that holds the points of all items; `None` if they have no points.
#[tactic(auto, using(twkb_points::proofs::PointLemmas::extents))]
fn joined_bounds<T: WithPoints>(items: &[T]) -> Option<Bounds>
    ensures { result ≡ extent (flat_map T.points_of items.now) }
{
    let mut bounds = None;
    for item in items {
        bounds = merged(bounds, item.bounds());
    }
    bounds
}
