//! The bounding box of a geometry.
ghost use Rattle.std.specs.Prelude.{◌≡◌};
ghost use Rattle.twkb_points.specs.Extent.{extent};
ghost use Rattle.twkb_tree.specs.Tree.{trees, flat, flat_all};

use crate::geometry::{Geometry, Members, Shape};
use crate::with_points::WithPoints;
use twkb_points::{Bounds, merged};

impl Members {
    // The smallest box that holds the points of all members; `None` if they have no points.
    #[cycle(bounds)]
    #[tactic(auto, using(twkb_points::proofs::PointLemmas::extents))]
    fn bounds(&self) -> Option<Bounds>
        ensures { result ≡ extent (flat_all (trees self.now)) }
    {
        let mut bounds = None;
        for member in self.as_slice() {
            bounds = merged(bounds, member.bounds());
        }
        bounds
    }
}

impl Geometry {
    /// The smallest box that holds all points of the geometry, members' points included, with their
    /// coordinates as they are, whatever the precision; `None` if it has no points (TWKB, bounding
    /// box; profile: what it spans in a collection). Takes no memory.
    #[cycle(bounds)]
    pub fn bounds(&self) -> Option<Bounds>
        ensures { result ≡ extent (flat self.now) }
    {
        match self.shape() {
            Shape::Point(None) => None,
            Shape::Point(Some(point)) => Some(Bounds::of(*point)),
            Shape::Line(points) | Shape::MultiPoint(points, _) => points.bounds(),
            Shape::Polygon(lines) | Shape::MultiLine(lines, _) => lines.bounds(),
            Shape::MultiPolygon(areas, _) => areas.bounds(),
            Shape::Collection(members, _) => members.bounds(),
        }
    }
}
