//! The end of a list of points, for appending.
ghost use Rattle.std.specs.Prelude.{◌≡◌, ◌+◌, ◌<◌, ◌≤◌, ◌++◌, ◌∷◌, [], List, length, take, OnOk};
ghost use Rattle.std.specs.Prelude.{OnErr, get_or, vec_len, vec_capacity};
ghost use Rattle.twkb_points.specs.Point.{Point, origin};

use crate::point::Pt;
use std::alloc::AllocError;
use std::mem::swap;

/// A list of points that are computed one by one.
pub trait PointList {
    // The points of the list.
    ghost points: { Self → List Point };

    /// The number of points. Takes no memory.
    fn count(&self) -> usize
        ensures { result ≡ length (points self.now) };

    /// The point at place `at`, which must be from 0 to `count` - 1. Takes no memory.
    fn point(&self, at: usize) -> Pt
        requires { at < length (points self.now) }
        ensures { result ≡ get_or (points self.now) at origin };
}

/// The end of a list of points, borrowed for appending. It takes points, is cut back and returns
/// the list's length; the points already in the list can't be read through it.
pub trait PointTail {
    // The points of the list.
    ghost held: { Self → List Point };

    /// The number of points in the list. Takes no memory.
    fn count(&self) -> usize
        ensures { result ≡ length (held self.now) };

    /// Appends a point. Takes memory; an `Err` changes nothing.
    fn put(&mut self, point: Pt) -> Result<(), AllocError>
        ensures appended { OnOk result (held self.new ≡ held self.old ++ point ∷ []) }
        ensures same { OnErr result (held self.new ≡ held self.old) };

    /// Appends some points in their order. Takes memory; an `Err` changes nothing.
    fn put_all(&mut self, points: &[Pt]) -> Result<(), AllocError>
        ensures appended { OnOk result (held self.new ≡ held self.old ++ points.now) }
        ensures same { OnErr result (held self.new ≡ held self.old) };

    /// Appends all points of a list in their order. Takes memory, once; an `Err` changes nothing.
    fn put_each<S: PointList>(&mut self, list: &S) -> Result<(), AllocError>
        ensures appended { OnOk result (held self.new ≡ held self.old ++ S.points list.now) }
        ensures same { OnErr result (held self.new ≡ held self.old) };

    /// Keeps the first `count` points, or all if there are fewer. Takes no memory.
    fn cut(&mut self, count: usize)
        ensures { held self.new ≡ take count (held self.old) };
}

// Appends all points of a list to a vector, which must have room for them. Takes no memory.
#[inline(always)]
#[tactic(auto, using(crate::proofs::PointLemmas::put_more))]
fn put_list<S: PointList>(points: &mut Vec<Pt>, list: &S)
    requires { vec_len points.old + length (S.points list.now) ≤ vec_capacity points.old }
    ensures { points.new.items ≡ points.old.items ++ S.points list.now }
{
    for at in 0..list.count() {
        points.push_reserved(list.point(at));
    }
}

impl PointTail for Vec<Pt> {
    ghost held = { λ points. points.items };

    #[inline(always)]
    fn count(&self) -> usize {
        self.len()
    }

    #[inline(always)]
    fn put(&mut self, point: Pt) -> Result<(), AllocError> {
        match self.push(point) {
            Ok(()) => Ok(()),
            Err(refused) => Err(refused.into()),
        }
    }

    #[inline(always)]
    fn put_all(&mut self, points: &[Pt]) -> Result<(), AllocError> {
        self.reserve(points.len())?;
        // point by point: copied as a slice, eight points in registers go through memory twice
        for point in points {
            self.push_reserved(*point);
        }
        Ok(())
    }

    #[inline(always)]
    fn put_each<S: PointList>(&mut self, list: &S) -> Result<(), AllocError> {
        self.reserve(list.count())?;
        // a vector of our own, whose length stays in a register while points are written
        let mut points = Vec::new(*self.allocator());
        swap(self, &mut points);
        put_list(&mut points, list);
        swap(self, &mut points);
        Ok(())
    }

    #[inline(always)]
    fn cut(&mut self, count: usize) {
        self.truncate(count);
    }
}
