//! A point that is complete at the start of bytes, with its header.
ghost use Rattle.std.specs.Prelude.{◌≤◌, IfSome};
ghost use Rattle.twkb_body.specs.Front.{PointHeader, WholePoint};

use crate::header::BARE;
use crate::points::front_point;
use twkb_grammar::{Metadata, TypeByte};
use twkb_num::GOES_ON;
use twkb_points::Pt;

/// Bytes of a header with a size of one byte, and no other optional part.
pub const SIZED: usize = 3;

/// A point that was read with its header: its position, how many bytes both have, and the size that
/// is declared, if any.
#[derive(Clone, Copy, Debug)]
pub struct Whole {
    pub to: Pt,
    pub used: usize,
    pub size: Option<u64>,
    ghost long: { 3 ≤ used },
}

// Reads the header of a point at the start of the bytes: the size that it declares, if any, and how
// many bytes the header has. `None` if it is cut, if its type is not point, if its metadata byte
// has any bit set but that of a size, or if its size has more than one byte.
#[inline(always)]
fn point_header(bytes: &[u8]) -> Option<(Option<u64>, usize)>
    ensures { IfSome result (λ front. PointHeader bytes.now front.0 front.1) }
{
    let first = TypeByte::from_byte(*bytes.first()?);
    if !first.is_point() {
        return None;
    }
    let metadata = Metadata::from_byte(*bytes.get(1)?);
    if metadata == Metadata::plain() {
        return Some((None, BARE));
    }
    if metadata != Metadata::sized() {
        return None;
    }
    let size = *bytes.get(2)?;
    if size >= GOES_ON {
        return None;
    }
    Some((Some(u64::from(size)), SIZED))
}

/// Reads the point at the start of the bytes with its header. `None` if a part is cut, if the type
/// is not point, if the metadata byte has any bit set but that of a size, if the size has more than
/// one byte, or if one of the point's two numbers is too long or leads out of range. Whether the
/// size is exact is not judged. Takes no memory.
#[inline(always)]
pub fn whole_point(bytes: &[u8]) -> Option<Whole>
    ensures { IfSome result (λ front. WholePoint bytes.now front.to front.used front.size) }
{
    let (size, header) = point_header(bytes)?;
    let (to, steps) = front_point(Pt::origin(), &bytes[header..])?;
    Some(Whole {
        to,
        used: header + steps,
        size,
    })
}
