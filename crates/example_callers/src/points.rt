//! Counting the points of a stream of blobs.
ghost use Rattle.std.specs.Prelude.{◌≡◌, length, IfOk};
ghost use Rattle.twkb_io.specs.Taps.{device_of};
ghost use Rattle.twkb_tree.specs.Limits.{standard_limits};
ghost use Rattle.twkb_tree.specs.Tree.{flat, saturated};
ghost use Rattle.example_callers.specs.Counting.{HasPoints};

use std::alloc::Global;
use std::io::Read;
use twkb_blob::{BlobFault, Reader};
use twkb_geom::{Geometry, Limits};
use twkb_io::{Input, Tap};

/// Counts the points of all blobs of a device, read to its end; at most `u64::MAX`. If the device
/// fails, or its bytes are no stream of blobs, returns the fault. Takes memory for one geometry.
pub fn count_points<R: Read>(alloc: Global, device: &mut Tap<R>) -> Result<u64, BlobFault>
    ensures { IfOk result (λ count. HasPoints standard_limits (R.remaining (device_of device.old)) count) }
{
    let mut blobs = Reader::new(Input::new(device), Limits::standard());
    let mut count = 0u64;
    while let Some(geometry) = blobs.next(alloc)? {
        count = count.saturating_add(points_of(geometry));
    }
    Ok(count)
}

// The number of points of a geometry, which is dropped.
fn points_of(geometry: Geometry) -> u64
    ensures { result ≡ saturated (length (flat geometry)) }
{
    geometry.points()
}
