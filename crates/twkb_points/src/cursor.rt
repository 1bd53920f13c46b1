//! A cursor that moves from point to point.
ghost use Rattle.std.specs.Prelude.{◌≡◌, ◌↔◌, ◌+ℤ◌, ◌-ℤ◌, IsTrue, IsSome, IfSome, IfNone};
ghost use Rattle.twkb_points.specs.Point.{IsCoordinate, IsInRange, origin, moved_by};

use crate::point::{Pt, moved_coordinate};
use std::marker::Model;

/// A cursor that moves from point to point. A contract sees the point where it is.
///
/// It turns points into differences (`delta`) and differences into points (`add`), as TWKB and the
/// Encoded Polyline Algorithm Format chain them.
#[derive(Clone, Copy, Debug, PartialEq, Eq)]
pub struct Cursor {
    at: Pt,
}

impl Model for Cursor {
    ghost use Rattle.twkb_points.specs.Point.{Point, IsInRange};

    ghost Value = { Point };

    ghost view = { λ c. c.at };

    ghost invariant = { λ c. IsInRange c.at };

    ghost inverse = { λ p. record { at = p } };
}

impl Cursor {
    /// Makes a cursor at (0, 0), from which the first difference of a list counts. Takes no memory.
    pub fn origin() -> Cursor
        ensures { result ≡ origin }
    {
        Cursor { at: Pt::at(0, 0) }
    }

    /// The point where the cursor is. Takes no memory.
    #[inline(always)]
    pub fn place(&self) -> Pt
        ensures { result ≡ self.now }
    {
        self.at
    }

    /// Moves the cursor to a point. Takes no memory.
    #[inline(always)]
    pub fn go(&mut self, to: Pt)
        ensures { self.new ≡ to }
    {
        self.at = to;
    }

    /// Moves the cursor to a point and returns how far it moved, x before y, in the points' unit:
    /// each from -(2^63 - 1) to 2^63 - 1. Takes no memory.
    pub fn delta(&mut self, to: Pt) -> (i64, i64)
        ensures x { result.0 ≡ to.x -ℤ self.old.x }
        ensures y { result.1 ≡ to.y -ℤ self.old.y }
        ensures moved { self.new ≡ to }
    {
        let from = self.at;
        self.at = to;
        (to.x() - from.x(), to.y() - from.y())
    }

    /// Moves the cursor by `dx` and `dy` and returns the point reached. `None` if a coordinate
    /// would leave -2^62 to 2^62 - 1; then the cursor stays. Takes no memory.
    #[inline(always)]
    pub fn add(&mut self, dx: i64, dy: i64) -> Option<Pt>
        ensures range { IsSome result ↔ IsInRange (moved_by self.old dx dy) }
        ensures point { IfSome result (λ p. p ≡ moved_by self.old dx dy) }
        ensures moved { IfSome result (λ p. self.new ≡ p) }
        ensures unmoved { IfNone result (self.new ≡ self.old) }
    {
        let to = self.at.moved(dx, dy)?;
        self.at = to;
        Some(to)
    }

    /// Moves the cursor by `dx` and `dy`, which must be from -2^62 to 2^62 - 1, and returns the
    /// point reached; one test of the point is then enough. `None` if a coordinate would leave that
    /// range; then the cursor stays. Takes no memory.
    #[inline(always)]
    pub fn add_near(&mut self, dx: i64, dy: i64) -> Option<Pt>
        requires near_x { IsCoordinate dx }
        requires near_y { IsCoordinate dy }
        ensures range { IsSome result ↔ IsInRange (moved_by self.old dx dy) }
        ensures point { IfSome result (λ p. p ≡ moved_by self.old dx dy) }
        ensures moved { IfSome result (λ p. self.new ≡ p) }
        ensures unmoved { IfNone result (self.new ≡ self.old) }
    {
        let to = self.at.moved_near(dx, dy)?;
        self.at = to;
        Some(to)
    }

    /// Whether x would stay in -2^62 to 2^62 - 1 after a move by `dx`. Takes no memory.
    pub fn x_in_range(&self, dx: i64) -> bool
        ensures { IsTrue result ↔ IsCoordinate (self.now.x +ℤ dx) }
    {
        moved_coordinate(self.at.x(), dx).is_some()
    }

    /// Whether y would stay in -2^62 to 2^62 - 1 after a move by `dy`. Takes no memory.
    pub fn y_in_range(&self, dy: i64) -> bool
        ensures { IsTrue result ↔ IsCoordinate (self.now.y +ℤ dy) }
    {
        moved_coordinate(self.at.y(), dy).is_some()
    }
}
