//! Equality of geometries.
ghost use Rattle.std.specs.Prelude.{◌≡◌, ◌↔◌, IsTrue};
ghost use Rattle.twkb_tree.specs.TreeCode.{tree_eq, tree_eq_partial, tree_eq_equiv};

use crate::geometry::{Geometry, Members, Shape};
use crate::lists::{Element, Elements, Ids};

// Whether both options are `None`, or both hold values and these are equal.
fn same_option<T: Element>(a: &Option<T>, b: &Option<T>) -> bool
    ensures { IsTrue result ↔ (a.now ≡ b.now) }
{
    match (a, b) {
        (None, None) => true,
        (Some(a), Some(b)) => a.same(b),
        _ => false,
    }
}

// Whether two lists of members are equal, and their ids are too.
fn same_with<T: Element>(a: &Elements<T>, b: &Elements<T>, ids: &Ids, others: &Ids) -> bool
    ensures { IsTrue result ↔ ((a.now ≡ b.now) × (ids.now ≡ others.now)) }
{
    a.same(b) && same_option(ids, others)
}

impl Members {
    // Whether the two lists of members are equal.
    #[cycle(same)]
    fn same(&self, other: &Members) -> bool
        ensures { IsTrue result ↔ (self.now ≡ other.now) }
    {
        let members = self.as_slice();
        let others = other.as_slice();
        if members.len() != others.len() {
            return false;
        }
        for index in 0..members.len() {
            if !members[index].same(&others[index]) {
                return false;
            }
        }
        true
    }
}

impl Shape {
    // Whether the two shapes are equal, with the ids of their members.
    #[cycle(same)]
    fn same(&self, other: &Shape) -> bool
        ensures { IsTrue result ↔ (self.now ≡ other.now) }
    {
        match (self, other) {
            (Shape::Point(a), Shape::Point(b)) => same_option(a, b),
            (Shape::Line(a), Shape::Line(b)) => a.same(b),
            (Shape::Polygon(a), Shape::Polygon(b)) => a.same(b),
            (Shape::MultiPoint(a, ids), Shape::MultiPoint(b, others)) => same_with(
                a, b, ids, others,
            ),
            (Shape::MultiLine(a, ids), Shape::MultiLine(b, others)) => same_with(a, b, ids, others),
            (Shape::MultiPolygon(a, ids), Shape::MultiPolygon(b, others)) => same_with(
                a, b, ids, others,
            ),
            (Shape::Collection(a, ids), Shape::Collection(b, others)) => a.same(b)
                && same_option(ids, others),
            _ => false,
        }
    }
}

impl Geometry {
    // Whether the two geometries are equal, as `eq` returns it.
    #[cycle(same)]
    fn same(&self, other: &Geometry) -> bool
        ensures { IsTrue result ↔ (self.now ≡ other.now) }
    {
        self.precision() == other.precision() && self.shape().same(other.shape())
    }
}

impl PartialEq for Geometry {
    ghost eq = { tree_eq };

    ghost laws = { tree_eq_partial };

    /// Whether the two geometries are equal. Takes no memory.
    fn eq(&self, other: &Geometry) -> bool
        ensures test { result ≡ tree_eq self.now other.now }
        ensures same { IsTrue result ↔ (self.now ≡ other.now) }
    {
        self.same(other)
    }
}

impl Eq for Geometry {
    ghost laws = { tree_eq_equiv };
}
