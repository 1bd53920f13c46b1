//! Room for points in a vector.
ghost use Rattle.std.specs.Prelude.{◌≡◌, ◌+◌, ◌≤◌, ◌++◌, OnOk, length, vec_len, vec_capacity};

use std::alloc::AllocError;
use twkb_points::Pt;

// The least room after the first growth, so that a short list asks for memory once.
const ROOM: usize = 16;

// Makes room for `count` more points in the vector, and takes memory only if they do not fit. The
// points stay, also after an `Err`.
#[inline(always)]
pub(crate) fn make_room(points: &mut Vec<Pt>, count: usize) -> Result<(), AllocError>
    ensures same { points.new.items ≡ points.old.items }
    ensures room { OnOk result (vec_len points.new + count ≤ vec_capacity points.new) }
{
    if points.capacity() - points.len() >= count {
        return Ok(());
    }
    grow(points, count)
}

// Takes memory for `count` more points, and for at least 16 points in all. The points stay, also
// after an `Err`.
#[inline(never)]
fn grow(points: &mut Vec<Pt>, count: usize) -> Result<(), AllocError>
    ensures same { points.new.items ≡ points.old.items }
    ensures room { OnOk result (vec_len points.new + count ≤ vec_capacity points.new) }
{
    let more = ROOM.saturating_sub(points.len()).max(count);
    points.reserve(more)
}

// Appends points to a vector, which must have room for them. Takes no memory.
#[inline(always)]
pub(crate) fn put_reserved(points: &mut Vec<Pt>, more: &[Pt])
    requires { vec_len points.old + length more.now ≤ vec_capacity points.old }
    ensures { points.new.items ≡ points.old.items ++ more.now }
{
    for point in more {
        points.push_reserved(*point);
    }
}
