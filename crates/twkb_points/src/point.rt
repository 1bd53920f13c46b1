//! A point with coordinates in range.
ghost use Rattle.std.specs.Prelude.{◌≡◌, ◌↔◌, ◌+ℤ◌, IsTrue, IsSome, IfSome};
ghost use Rattle.twkb_points.specs.Point.{IsCoordinate, IsInRange, IsInnerCoordinate, IsInner, point_at, origin};
ghost use Rattle.twkb_points.specs.Point.{moved_by};

use std::marker::Model;

/// Coordinates are below this number, 2^62, and not below its negative (profile).
pub const COORDINATE_BOUND: u64 = 1 << 62;

// Coordinates of inner points are below this number, 2^61, and not below its negative.
const INNER_BOUND: u64 = COORDINATE_BOUND / 2;

// The least coordinate.
const LEAST: i64 = -(COORDINATE_BOUND as i64);

// The greatest coordinate.
const GREATEST: i64 = COORDINATE_BOUND as i64 - 1;

// The least coordinate of an inner point.
const INNER_LEAST: i64 = -(INNER_BOUND as i64);

// The greatest coordinate of an inner point.
const INNER_GREATEST: i64 = INNER_BOUND as i64 - 1;

/// A point whose coordinates are from -2^62 to 2^62 - 1, so that the difference of any two fits
/// 64 bits (a choice of this project). Coordinates are whole numbers; their unit is not part of
/// the point, since TWKB and polylines keep the decimals beside the points.
#[derive(Clone, Copy, Debug, PartialEq, Eq)]
pub struct Pt {
    x: i64,
    y: i64,
}

impl Model for Pt {
    ghost use Rattle.twkb_points.specs.Point.{Point, IsInRange};

    ghost Value = { Point };

    ghost view = { λ a. record { x = a.x; y = a.y } };

    ghost invariant = { λ a. IsInRange (record { x = a.x; y = a.y }) };

    ghost inverse = { λ p. record { x = p.x; y = p.y } };
}

impl Pt {
    /// Makes a point; `None` if a coordinate is outside -2^62 to 2^62 - 1. Takes no memory.
    pub fn try_new(x: i64, y: i64) -> Option<Pt>
        ensures range { IsSome result ↔ (IsCoordinate x × IsCoordinate y) }
        ensures value { IfSome result (λ p. p ≡ point_at x y) }
    {
        if is_coordinate(x) && is_coordinate(y) {
            Some(Pt { x, y })
        } else {
            None
        }
    }

    /// The point (0, 0), from which the first difference of a list of points counts. Takes no
    /// memory.
    pub fn origin() -> Pt
        ensures { result ≡ origin }
    {
        Pt::at(0, 0)
    }

    /// Whether both coordinates are from -2^61 to 2^61 - 1. Takes no memory.
    #[inline(always)]
    pub fn is_inner(&self) -> bool
        ensures { IsTrue result ↔ IsInner self.now }
    {
        is_inner_coordinate(self.x) && is_inner_coordinate(self.y)
    }

    /// Makes a point from coordinates, which must be from -2^62 to 2^62 - 1. Takes no memory.
    #[inline(always)]
    pub fn at(x: i64, y: i64) -> Pt
        requires x_in_range { IsCoordinate x }
        requires y_in_range { IsCoordinate y }
        ensures { result ≡ point_at x y }
    {
        Pt { x, y }
    }

    /// The point at `dx` and `dy` from this one; the coordinates of the point reached must be from
    /// -2^62 to 2^62 - 1. Takes no memory.
    #[inline(always)]
    pub fn step(self, dx: i64, dy: i64) -> Pt
        requires x_in_range { IsCoordinate (self.x +ℤ dx) }
        requires y_in_range { IsCoordinate (self.y +ℤ dy) }
        ensures { result ≡ moved_by self dx dy }
    {
        Pt::at(self.x + dx, self.y + dy)
    }

    // The point at `dx` and `dy` from this one; `None` if one of its coordinates is outside -2^62
    // to 2^62 - 1.
    #[inline(always)]
    pub(crate) fn moved(self, dx: i64, dy: i64) -> Option<Pt>
        ensures range { IsSome result ↔ IsInRange (moved_by self dx dy) }
        ensures value { IfSome result (λ p. p ≡ moved_by self dx dy) }
    {
        let Pt { x, y } = self;
        let x = moved_coordinate(x, dx)?;
        let y = moved_coordinate(y, dy)?;
        Some(Pt { x, y })
    }

    /// The point at `dx` and `dy` from this one; `None` if one of its coordinates is outside -2^62
    /// to 2^62 - 1. `dx` and `dy` must be in that range too: then no sum passes 64 bits, and one
    /// test of the point is enough. Takes no memory.
    #[inline(always)]
    pub fn moved_near(self, dx: i64, dy: i64) -> Option<Pt>
        requires near_x { IsCoordinate dx }
        requires near_y { IsCoordinate dy }
        ensures range { IsSome result ↔ IsInRange (moved_by self dx dy) }
        ensures value { IfSome result (λ p. p ≡ moved_by self dx dy) }
    {
        Pt::try_new(self.x() + dx, self.y() + dy)
    }

    /// The point at `dx` from this one along x, with the same y; `None` if its x is outside -2^62
    /// to 2^62 - 1. Takes no memory.
    pub fn moved_x(self, dx: i64) -> Option<Pt>
        ensures range { IsSome result ↔ IsCoordinate (self.x +ℤ dx) }
        ensures moved { IfSome result (λ to. to ≡ point_at (self.x +ℤ dx) self.y) }
    {
        let Pt { x, y } = self;
        let x = moved_coordinate(x, dx)?;
        Some(Pt { x, y })
    }

    /// The point at `dy` from this one along y, with the same x; `None` if its y is outside -2^62
    /// to 2^62 - 1. Takes no memory.
    pub fn moved_y(self, dy: i64) -> Option<Pt>
        ensures range { IsSome result ↔ IsCoordinate (self.y +ℤ dy) }
        ensures moved { IfSome result (λ to. to ≡ point_at self.x (self.y +ℤ dy)) }
    {
        let Pt { x, y } = self;
        let y = moved_coordinate(y, dy)?;
        Some(Pt { x, y })
    }

    /// The first coordinate, from -2^62 to 2^62 - 1: the longitude, if the points are on a globe.
    /// Takes no memory.
    pub fn x(&self) -> i64
        ensures value { result ≡ self.now.x }
        ensures in_range { IsInRange self.now }
    {
        self.x
    }

    /// The second coordinate, from -2^62 to 2^62 - 1: the latitude, if the points are on a globe.
    /// Takes no memory.
    pub fn y(&self) -> i64
        ensures value { result ≡ self.now.y }
        ensures in_range { IsInRange self.now }
    {
        self.y
    }
}

// Whether the number is from -2^61 to 2^61 - 1.
#[inline(always)]
fn is_inner_coordinate(number: i64) -> bool
    ensures { IsTrue result ↔ IsInnerCoordinate number }
{
    INNER_LEAST <= number && number <= INNER_GREATEST
}

// Whether the number is from -2^62 to 2^62 - 1, the range of a coordinate.
pub(crate) fn is_coordinate(number: i64) -> bool
    ensures { IsTrue result ↔ IsCoordinate number }
{
    LEAST <= number && number <= GREATEST
}

// `from` plus `by`; `None` if the sum is outside -2^62 to 2^62 - 1, the range of a coordinate.
pub(crate) fn moved_coordinate(from: i64, by: i64) -> Option<i64>
    ensures range { IsSome result ↔ IsCoordinate (from +ℤ by) }
    ensures in_range { IfSome result IsCoordinate }
    ensures sum { IfSome result (λ to. to ≡ from +ℤ by) }
{
    let to = from.checked_add(by)?;
    if is_coordinate(to) { Some(to) } else { None }
}
