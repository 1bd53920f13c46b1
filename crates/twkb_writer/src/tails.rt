//! Totals of the last points of a geometry, to which points are added from the last to the first.
ghost use Rattle.std.specs.Prelude.{◌≡◌, ◌+◌, ◌≤◌, [], ◌∷◌, List};
ghost use Rattle.twkb_num.specs.Varint.{lanes_cap};
ghost use Rattle.twkb_points.specs.Point.{Point};
ghost use Rattle.twkb_writer.specs.Sizes.{sums_cap};
ghost use Rattle.twkb_writer.specs.Totals.{step_len, from_origin, tail_from, tail_of};

use crate::lengths::signed_len;
use twkb_num::{VarintLens, zigzag};
use twkb_points::{Bounds, Cursor, Pt, merged};

// Totals of the points of a geometry from one point on.
#[derive(Clone, Copy)]
pub(crate) struct TailTotals {
    // The first of the points.
    pub(crate) first: Option<Pt>,
    // The number of bytes of the differences of all points but the first, each from the point
    // before it.
    pub(crate) bytes: u64,
    // The bounds of the points.
    pub(crate) bounds: Option<Bounds>,
}

// The totals of at least one point.
#[derive(Drop)]
pub(crate) struct NonEmptyTailTotals {
    pub(crate) first: Pt,
    pub(crate) bytes: VarintLens,
    pub(crate) bounds: Bounds,
}

// The number of bytes of the two varints of the difference from one point to the next, at most 20.
fn step_len(from: Pt, to: Pt) -> u64
    ensures value { result ≡ step_len from to }
    ensures most { result ≤ 20 }
{
    let mut cursor = Cursor::origin();
    // moves the cursor to `from`; this difference is not counted
    let _from_origin = cursor.delta(from);
    let (x, y) = cursor.delta(to);
    signed_len(x) + signed_len(y)
}

// Adds to `bytes`, which must be at most 2^31, the number of bytes of two differences: from one
// point to a second, and from that to a third.
#[tactic(auto, unfolding(crate::specs::Totals::number_len))]
#[inline(always)]
fn add_two_steps(bytes: &mut VarintLens, from: Pt, by: Pt, to: Pt)
    requires room { bytes.old ≤ lanes_cap }
    ensures value { bytes.new ≡ bytes.old + (step_len from by + step_len by to) }
    ensures most { bytes.new ≤ bytes.old + 40 }
{
    let mut cursor = Cursor::origin();
    // moves the cursor to `from`; this difference is not counted
    let _from_origin = cursor.delta(from);
    let (x, y) = cursor.delta(by);
    let (next_x, next_y) = cursor.delta(to);
    bytes.add_four(zigzag(x), zigzag(y), zigzag(next_x), zigzag(next_y));
}

impl TailTotals {
    // Makes the totals of no points.
    pub(crate) fn none() -> TailTotals
        ensures { result ≡ tail_of [] }
    {
        TailTotals {
            first: None,
            bytes: 0,
            bounds: None,
        }
    }

    // The totals of `point` and, after it, the points of `self`. `self.bytes` must be at most 2^40.
    pub(crate) fn with_first(self, point: Pt) -> TailTotals
        requires room { self.bytes ≤ sums_cap }
        ensures value { (ps : List Point) → self ≡ tail_of ps → result ≡ tail_of (point ∷ ps) }
        ensures most { result.bytes ≤ self.bytes + 20 }
    {
        let step = match self.first {
            Some(next) => step_len(point, next),
            None => 0,
        };
        TailTotals {
            first: Some(point),
            bytes: step + self.bytes,
            bounds: merged(Some(Bounds::of(point)), self.bounds),
        }
    }

    // The totals of `point` and, after it, the points of `self`, in the form for at least one
    // point. `self.bytes` must be at most 2^40.
    #[inline(always)]
    pub(crate) fn begun(self, point: Pt) -> NonEmptyTailTotals
        requires room { self.bytes ≤ sums_cap }
        ensures value { (ps : List Point) → self ≡ tail_of ps → tail_from result ≡ tail_of (point ∷ ps) }
        ensures most { result.bytes ≤ self.bytes + 20 }
    {
        let step = match self.first {
            Some(next) => step_len(point, next),
            None => 0,
        };
        let mut bounds = Bounds::of(point);
        if let Some(others) = self.bounds {
            bounds.merge(&others);
        }
        NonEmptyTailTotals {
            first: point,
            bytes: VarintLens::from(step + self.bytes),
            bounds,
        }
    }

    // The number of bytes of the differences of all points, the first of them from (0, 0); 0 if
    // there are no points. `self.bytes` must be at most 2^40.
    pub(crate) fn from_origin(&self) -> u64
        requires room { self.now.bytes ≤ sums_cap }
        ensures value { result ≡ from_origin self.now }
        ensures most { result ≤ self.now.bytes + 20 }
    {
        match self.first {
            Some(first) => {
                let (x, y) = Cursor::origin().delta(first);
                signed_len(x) + signed_len(y) + self.bytes
            }
            None => 0,
        }
    }
}

impl NonEmptyTailTotals {
    // The totals of `point`, then `next`, then the points of `self`. `self.bytes` must be at most
    // 2^31.
    #[inline(always)]
    pub(crate) fn with_first_two(self, point: Pt, next: Pt) -> NonEmptyTailTotals
        requires room { self.bytes ≤ lanes_cap }
        ensures value { (ps : List Point) → tail_from self ≡ tail_of ps
            → tail_from result ≡ tail_of (point ∷ next ∷ ps) }
        ensures most { result.bytes ≤ self.bytes + 40 }
    {
        let mut others = Bounds::of(next);
        others.merge(&self.bounds);
        let mut bounds = Bounds::of(point);
        bounds.merge(&others);
        let mut bytes = self.bytes;
        add_two_steps(&mut bytes, point, next, self.first);
        NonEmptyTailTotals {
            first: point,
            bytes,
            bounds,
        }
    }

    // The same totals, in the form for any number of points. `self.bytes` must be at most 2^31.
    #[inline(always)]
    pub(crate) fn tail(self) -> TailTotals
        requires { self.bytes ≤ lanes_cap }
        ensures { result ≡ tail_from self }
    {
        TailTotals {
            first: Some(self.first),
            bytes: self.bytes.total(),
            bounds: Some(self.bounds),
        }
    }
}
