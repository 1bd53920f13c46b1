//! The bounding box of some points.
ghost use Rattle.std.specs.Prelude.{◌≡◌, ◌-ℤ◌, List, [], ◌∷◌, ◌++◌};
ghost use Rattle.std.specs.Int.{int_min, int_max};
ghost use Rattle.twkb_points.specs.Point.{Point, IsCoordinate, point_at};
ghost use Rattle.twkb_points.specs.Extent.{extent_of, joined, joined_options, extent, box_numbers, tight};

use crate::point::Pt;
use std::marker::Model;

/// The least and the greatest coordinates of at least one point. A contract sees their extent.
#[derive(Clone, Copy, Debug, PartialEq, Eq)]
pub struct Bounds {
    least: Pt,
    greatest: Pt,
}

impl Model for Bounds {
    ghost use Rattle.twkb_points.specs.Extent.{Extent};
    ghost use Rattle.twkb_points.specs.Point.{IsInRange};

    ghost Value = { Extent };

    ghost view = { λ b. record { least = b.least; greatest = b.greatest } };

    ghost invariant = { λ b. IsInRange b.least × IsInRange b.greatest };

    ghost inverse = { λ e. record { least = e.least; greatest = e.greatest } };
}

// The lesser of two coordinates.
fn lesser(a: i64, b: i64) -> i64
    requires a_in_range { IsCoordinate a }
    requires b_in_range { IsCoordinate b }
    ensures value { result ≡ int_min a b }
    ensures in_range { IsCoordinate result }
{
    a.min(b)
}

// The greater of two coordinates.
fn greater(a: i64, b: i64) -> i64
    requires a_in_range { IsCoordinate a }
    requires b_in_range { IsCoordinate b }
    ensures value { result ≡ int_max a b }
    ensures in_range { IsCoordinate result }
{
    a.max(b)
}

// The coordinate `greatest` less the coordinate `least`, in the points' unit; it fits 64 bits.
fn width_of(least: i64, greatest: i64) -> i64
    requires least_in_range { IsCoordinate least }
    requires greatest_in_range { IsCoordinate greatest }
    ensures { result ≡ greatest -ℤ least }
{
    greatest - least
}

// The point with the lesser x and the lesser y of two points.
fn least_of(a: Pt, b: Pt) -> Pt
    ensures { result ≡ point_at (int_min a.x b.x) (int_min a.y b.y) }
{
    let x = lesser(a.x(), b.x());
    let y = lesser(a.y(), b.y());
    Pt::at(x, y)
}

// The point with the greater x and the greater y of two points.
fn greatest_of(a: Pt, b: Pt) -> Pt
    ensures { result ≡ point_at (int_max a.x b.x) (int_max a.y b.y) }
{
    let x = greater(a.x(), b.x());
    let y = greater(a.y(), b.y());
    Pt::at(x, y)
}

impl Bounds {
    /// Makes the bounds of one point. Takes no memory.
    pub fn of(point: Pt) -> Bounds
        ensures { result ≡ extent_of point }
    {
        Bounds {
            least: point,
            greatest: point,
        }
    }

    /// The bounds of some points; `None` if there are no points. Takes no memory.
    pub fn around(points: &[Pt]) -> Option<Bounds>
        ensures { result ≡ extent points.now }
    {
        let (first, others) = points.split_first()?;
        let mut bounds = Bounds::of(*first);
        for point in others {
            bounds.include(*point);
        }
        Some(bounds)
    }

    /// Widens the bounds as little as they need to hold a point. Takes no memory.
    #[tactic(auto, using(crate::proofs::PointLemmas::extents))]
    pub fn include(&mut self, point: Pt)
        ensures value { self.new ≡ joined self.old (extent_of point) }
        ensures stands { (ps : List Point) → extent ps ≡ Some self.old → extent (ps ++ point ∷ []) ≡ Some self.new }
    {
        self.merge(&Bounds::of(point));
    }

    /// Widens the bounds as little as they need to hold other bounds. Takes no memory.
    #[tactic(auto, unfolding(crate::specs::Extent::joined))]
    pub fn merge(&mut self, other: &Bounds)
        ensures value { self.new ≡ joined self.old other.now }
        ensures stands { (ps qs : List Point) → extent ps ≡ Some self.old
            → extent qs ≡ Some other.now → extent (ps ++ qs) ≡ Some self.new }
    {
        *self = Bounds {
            least: least_of(self.least, other.least),
            greatest: greatest_of(self.greatest, other.greatest),
        };
    }

    /// The least x, the width in x, the least y and the width in y, in the points' unit: the
    /// numbers of TWKB's bounding box, in its order. Takes no memory.
    pub fn items(&self) -> [i64; 4]
        ensures value { result ≡ box_numbers self.now }
        ensures of_each_list { (ps : List Point) → extent ps ≡ Some self.now → result ≡ tight ps }
    {
        let least_x = self.least.x();
        let width = width_of(least_x, self.greatest.x());
        let least_y = self.least.y();
        let height = width_of(least_y, self.greatest.y());
        [least_x, width, least_y, height]
    }
}

/// The least bounds that hold two bounds; if only one is there, that one; `None` if neither is.
/// Takes no memory.
pub fn merged(a: Option<Bounds>, b: Option<Bounds>) -> Option<Bounds>
    ensures { result ≡ joined_options a b }
{
    match (a, b) {
        (None, b) => b,
        (a, None) => a,
        (Some(mut a), Some(b)) => {
            a.merge(&b);
            Some(a)
        }
    }
}
