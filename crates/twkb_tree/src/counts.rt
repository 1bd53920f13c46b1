//! The numbers of rows and points of a geometry.
ghost use Rattle.std.specs.Prelude.{◌≡◌, length};
ghost use Rattle.twkb_tree.specs.Tree.{saturated, trees, area_nodes, nodes, nodes_all, flat, flat_all};
ghost use Rattle.twkb_tree.specs.Rows.{rows};

use crate::geometry::{Geometry, Members, Shape};
use crate::lists::Areas;
use crate::with_points::WithPoints;

// The number of rows of some polygons, at most `u64::MAX`: one for each polygon and one for each
// ring.
fn rows_of(areas: &Areas) -> u64
    ensures { result ≡ saturated (area_nodes areas.now) }
{
    let mut total = 0u64;
    for area in areas.as_slice() {
        let rings = area.as_slice().len() as u64;
        total = total.saturating_add(rings).saturating_add(1);
    }
    total
}

impl Members {
    // The number of rows of all members, at most `u64::MAX`.
    #[cycle(nodes)]
    fn count_nodes(&self) -> u64
        ensures { result ≡ saturated (nodes_all (trees self.now)) }
    {
        let mut total = 0u64;
        for member in self.as_slice() {
            total = total.saturating_add(member.count_nodes());
        }
        total
    }

    // The number of points of all members, at most `u64::MAX`.
    #[cycle(points)]
    fn points(&self) -> u64
        ensures { result ≡ saturated (length (flat_all (trees self.now))) }
    {
        let mut total = 0u64;
        for member in self.as_slice() {
            total = total.saturating_add(member.points());
        }
        total
    }
}

impl Geometry {
    /// The number of rows that the geometry has in a table, at most `u64::MAX`: one for itself, and
    /// one for each member and ring at any depth. Takes no memory.
    #[tactic(auto, using(crate::proofs::TreeLemmas::row_counts))]
    pub fn nodes(&self) -> u64
        ensures { result ≡ saturated (length (rows 0 self.now)) }
    {
        self.count_nodes()
    }

    // The number of rows, as `nodes` returns it.
    #[cycle(nodes)]
    pub(crate) fn count_nodes(&self) -> u64
        ensures { result ≡ saturated (nodes self.now) }
    {
        let below = match self.shape() {
            Shape::Point(_) | Shape::Line(_) => 0,
            Shape::Polygon(rings) => rings.as_slice().len() as u64,
            Shape::MultiPoint(points, _) => points.as_slice().len() as u64,
            Shape::MultiLine(lines, _) => lines.as_slice().len() as u64,
            Shape::MultiPolygon(areas, _) => rows_of(areas),
            Shape::Collection(members, _) => members.count_nodes(),
        };
        below.saturating_add(1)
    }

    /// The number of the geometry's points, members' points included, at most `u64::MAX`. Takes no
    /// memory.
    #[cycle(points)]
    pub fn points(&self) -> u64
        ensures { result ≡ saturated (length (flat self.now)) }
    {
        match self.shape() {
            Shape::Point(None) => 0,
            Shape::Point(Some(_)) => 1,
            Shape::Line(points) | Shape::MultiPoint(points, _) => points.points(),
            Shape::Polygon(lines) | Shape::MultiLine(lines, _) => lines.points(),
            Shape::MultiPolygon(areas, _) => areas.points(),
            Shape::Collection(members, _) => members.points(),
        }
    }
}
