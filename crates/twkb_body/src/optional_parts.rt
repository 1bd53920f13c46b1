//! The optional parts of a header that are complete at the start of bytes.
ghost use Rattle.std.specs.Prelude.{IfSome};
ghost use Rattle.twkb_body.specs.HeaderParts.{SizeInFront, BoxInFront, PartsInFront};

use crate::numbers::{FrontNumber, front_number};
use twkb_grammar::Metadata;

// Sides of a box (TWKB, bounding box).
const SIDES: usize = 4;

/// The optional parts of a header but the extended dimensions byte: the size that it declares, if
/// any, how many of their bytes come before those that a size counts (`from`), and how many bytes
/// they have (`used`).
#[derive(Clone, Copy, Debug)]
pub struct OptionalParts {
    pub size: Option<u64>,
    pub from: usize,
    pub used: usize,
}

// Reads the size at the start of the bytes, and returns it and how many bytes it has; no size and 0
// if this metadata byte announces none. `None` if its varint is cut, or is longer than ten bytes or
// of 2^64 or above.
#[inline(always)]
fn front_size(metadata: Metadata, bytes: &[u8]) -> Option<(Option<u64>, usize)>
    ensures { IfSome result (λ front. SizeInFront metadata bytes.now front.0 front.1) }
{
    if !metadata.has_size() {
        return Some((None, 0));
    }
    let FrontNumber::Complete { number, width } = front_number(bytes) else {
        return None;
    };
    Some((Some(number), width))
}

// How many bytes the box at the start of the bytes has; 0 if this metadata byte announces none.
// `None` if one of its four varints is cut, or is longer than ten bytes or of 2^64 or above.
#[inline(always)]
fn front_box_length(metadata: Metadata, bytes: &[u8]) -> Option<usize>
    ensures { IfSome result (λ used. BoxInFront metadata bytes.now used) }
{
    if !metadata.has_box() {
        return Some(0);
    }
    let mut used = 0;
    let mut count = 0;
    while count < SIDES {
        let FrontNumber::Complete { width, .. } = front_number(&bytes[used..]) else {
            return None;
        };
        used += width;
        count += 1;
    }
    Some(used)
}

/// Reads the size and the box at the start of the bytes, as far as this metadata byte announces
/// them. `None` if it announces the extended dimensions byte, or if one of their varints is cut, or
/// is longer than ten bytes or of 2^64 or above. Takes no memory.
#[inline(always)]
pub fn front_parts(metadata: Metadata, bytes: &[u8]) -> Option<OptionalParts>
    ensures { IfSome result (λ parts. PartsInFront metadata bytes.now parts.size parts.from parts.used) }
{
    if metadata.has_extended() {
        return None;
    }
    let (size, from) = front_size(metadata, bytes)?;
    let sides = front_box_length(metadata, &bytes[from..])?;
    Some(OptionalParts {
        size,
        from,
        used: from + sides,
    })
}
