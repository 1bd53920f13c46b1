//! Blobs of worked tables, and the geometries and forms read from them.
use std::alloc::Global;
use std::io::Read;
use twkb_blob::{Reader, Session};
use twkb_geom::{Flat, Geometry, Limits};
use twkb_io::{Input, Tap};

/// `0,multipolygon,,0,` / `1,polygon,3,,` / `2,ring,,,AA` / `2,ring,,,` / `1,polygon,4,,`
pub const TWO_POLYGONS: &[u8] = b"\x06\x04\x02\x06\x08\x02\x01\x02\x02\x00\x00";

/// `0,collection,,0,` / `1,point,7,0,AA` / `1,linestring,-1,0,`, in full.
pub const POINT_AND_LINE: &[u8] =
    b"\x07\x07\x0F\x02\x00\x02\x00\x02\x0E\x01\x01\x02\x02\x02\x02\x02\x12\x00";

/// `0,collection,,0,` / `1,collection,,0,` / `2,point,,5,AA` / `1,point,,-8,AC`
pub const THREE_PRECISIONS: &[u8] = b"\x07\x00\x02\x07\x00\x01\xA1\x00\x02\x02\xF1\x00\x04\x02";

/// Eight nested collections, and an empty one in the innermost.
pub const NINE_COLLECTIONS: &[u8] =
    b"\x07\x00\x01\x07\x00\x01\x07\x00\x01\x07\x00\x01\x07\x00\x01\x07\x00\x01\x07\x00\x01\x07\x00\x01\x07\x10";

/// The geometry of a blob; `None` if there is none, or if memory is refused.
pub fn geometry(alloc: Global, blob: &[u8]) -> Option<Geometry> {
    let mut session = Session::new(alloc, Limits::largest());
    match session.feed(blob) {
        Ok((_, geometry)) => geometry,
        Err(_) => None,
    }
}

// Reads the first geometry of a device into a form.
fn read_form<R: Read>(alloc: Global, tap: &mut Tap<R>, flat: &mut Flat) {
    let mut reader = Reader::new(Input::new(tap), Limits::largest());
    let _is_read = reader.next_flat(alloc, flat).is_ok();
}

/// The flat form of a blob; without rows if there is none, or if memory is refused.
pub fn form(alloc: Global, blob: &[u8]) -> Flat {
    let mut flat = Flat::new(alloc);
    read_form(alloc, &mut Tap::new(blob), &mut flat);
    flat
}
