//! Points that are complete at the start of bytes, each by its two steps from the one before it.
ghost use Rattle.std.specs.Prelude.{◌≡◌, ◌<◌, ◌^◌, IfSome};
ghost use Rattle.twkb_num.specs.Spelling.{zigzag_of};
ghost use Rattle.twkb_points.specs.Point.{IsCoordinate};
ghost use Rattle.twkb_body.specs.Front.{PointInFront, StepsTo};

use crate::numbers::{FrontNumber, long_number, short_number};
use twkb_num::unzigzag;
use twkb_points::Pt;

// The step whose zigzag form is this number, which must be below 2^35.
#[inline(always)]
fn short_step(number: u64) -> i64
    requires { number < 2 ^ 35 }
    ensures form { zigzag_of result ≡ number }
    ensures near { IsCoordinate result }
{
    unzigzag(number)
}

// The point at `dx` along x and `dy` along y from this one; `None` if a coordinate is then outside
// -2^62 to 2^62 - 1. Both steps must be in that range.
#[inline(always)]
fn after_steps(from: Pt, dx: i64, dy: i64) -> Option<Pt>
    requires near_x { IsCoordinate dx }
    requires near_y { IsCoordinate dy }
    ensures { IfSome result (λ to. StepsTo from (zigzag_of dx) (zigzag_of dy) to) }
{
    from.moved_near(dx, dy)
}

// The point after two steps from this one, along x and along y, each given by its zigzag form,
// which must be below 2^35; `None` if a coordinate is then outside -2^62 to 2^62 - 1.
#[inline(always)]
fn after_short_steps(from: Pt, x: u64, y: u64) -> Option<Pt>
    requires x_small { x < 2 ^ 35 }
    requires y_small { y < 2 ^ 35 }
    ensures { IfSome result (λ to. StepsTo from x y to) }
{
    after_steps(from, short_step(x), short_step(y))
}

// Does what `front_point` does, with varints of any length. It is called when `short_number` does
// not suffice for one of the two, which is rare.
#[cold]
#[inline(never)]
fn long_point(from: Pt, bytes: &[u8]) -> Option<(Pt, usize)>
    ensures { IfSome result (λ front. PointInFront from bytes.now front.0 front.1) }
{
    let FrontNumber::Complete {
        number: x,
        width: x_length,
    } = long_number(bytes)
    else {
        return None;
    };
    let FrontNumber::Complete {
        number: y,
        width: y_length,
    } = long_number(&bytes[x_length..])
    else {
        return None;
    };
    let beside = from.moved_x(unzigzag(x))?;
    let to = beside.moved_y(unzigzag(y))?;
    Some((to, x_length + y_length))
}

/// Reads the point at the start of the bytes, given by its two steps from `from`, and returns it
/// and how many bytes the steps have. `None` if a varint is cut, or is longer than ten bytes or of
/// 2^64 or above, or if a coordinate is outside -2^62 to 2^62 - 1. Takes no memory.
#[inline(always)]
pub fn front_point(from: Pt, bytes: &[u8]) -> Option<(Pt, usize)>
    ensures { IfSome result (λ front. PointInFront from bytes.now front.0 front.1) }
{
    let Some((x, x_length)) = short_number(bytes) else {
        return long_point(from, bytes);
    };
    let Some((y, y_length)) = short_number(&bytes[x_length..]) else {
        return long_point(from, bytes);
    };
    let to = after_short_steps(from, x, y)?;
    Some((to, x_length + y_length))
}
