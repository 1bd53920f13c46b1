//! Lists of points as differences, and back.
ghost use Rattle.std.specs.Prelude.{◌≡◌, ◌≤◌, ◌++◌, List, length, take, drop, slice_get};
ghost use Rattle.twkb_points.specs.Point.{Point, IsInRange, AreInRange};
ghost use Rattle.twkb_points.specs.Steps.{differences, points_of};

use crate::cursor::Cursor;
use crate::point::Pt;

/// Writes the first point, and then each point less the one before it, as differences in x and in y
/// in the points' unit (TWKB; Encoded Polyline Algorithm Format). `deltas` must be as long as
/// `points`. Takes no memory.
pub fn to_differences(points: &[Pt], deltas: &mut [(i64, i64)])
    requires { length deltas.old ≡ length points.now }
    ensures { deltas.new ≡ differences points.now }
{
    let mut cursor = Cursor::origin();
    for (i, point) in points.iter().enumerate() {
        deltas[i] = cursor.delta(*point);
    }
}

/// Writes the points that the differences lead to from (0, 0), and returns how many: all of them,
/// or those before the first with a coordinate outside -2^62 to 2^62 - 1. The places after them
/// stay as they were. `points` must be as long as `deltas`. Takes no memory.
pub fn to_points(deltas: &[(i64, i64)], points: &mut [Pt]) -> usize
    requires { length points.old ≡ length deltas.now }
    ensures within { result ≤ length deltas.now }
    ensures written { points.new ≡ take result (points_of deltas.now) ++ drop result points.old }
    ensures stopped { (p : Point) → slice_get (points_of deltas.now) result ≡ Some p → ¬ IsInRange p }
    ensures back { (ps : List Point) → AreInRange ps → deltas.now ≡ differences ps → points.new ≡ ps }
{
    let mut cursor = Cursor::origin();
    for (i, (dx, dy)) in deltas.iter().enumerate() {
        let Some(point) = cursor.add(*dx, *dy) else {
            return i;
        };
        points[i] = point;
    }
    deltas.len()
}
