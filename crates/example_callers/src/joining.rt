//! Joining the polylines of two routes.
ghost use Rattle.std.specs.Prelude.{IfOk};
ghost use Rattle.example_callers.specs.Routes.{IsJoined};

use std::alloc::Global;
use twkb_polyline::{PolyFault, decode, decode_into, encode};

// The most points of each route.
const MOST: u32 = 10_000;

/// Joins two routes: the polyline of the points of both, one after the other. A text that is no
/// polyline of at most 10,000 points is refused with its place and reason. Takes memory for the
/// points and the new text.
pub fn joined(alloc: Global, first: &[u8], second: &[u8]) -> Result<Vec<u8>, PolyFault>
    ensures { IfOk result (λ text. IsJoined first.now second.now text.items) }
{
    let mut points = decode(alloc, first, MOST)?;
    decode_into(second, MOST, &mut points)?;
    let text = encode(alloc, points.as_slice())?;
    Ok(text)
}
