//! A header that is complete at the start of bytes.
ghost use Rattle.std.specs.Prelude.{IfSome};
ghost use Rattle.twkb_body.specs.Header.{HeaderInFront};

use crate::optional_parts::{OptionalParts, front_parts};
use twkb_grammar::{Metadata, TypeByte};

// Bytes of a header without optional parts: a type byte and a metadata byte.
pub(crate) const BARE: usize = 2;

/// A header of a geometry with a body: its type byte, its metadata byte, its optional parts, how
/// many of its bytes come before those that a size counts (`from`), and how many bytes it has
/// (`used`).
#[derive(Clone, Copy, Debug)]
pub struct FrontHeader {
    pub type_byte: TypeByte,
    pub metadata: Metadata,
    pub parts: OptionalParts,
    pub from: usize,
    pub used: usize,
}

/// Reads the header at the start of the bytes: type byte, metadata byte, and size and box if it has
/// them. `None` if one of them is cut or has a number that is too long (over ten bytes, or 2^64 or
/// above), if the type byte names no type, or if the metadata byte announces the extended
/// dimensions byte or no body. Takes no memory.
#[inline(always)]
pub fn front_header(bytes: &[u8]) -> Option<FrontHeader>
    ensures { IfSome result (λ header. HeaderInFront bytes.now header) }
{
    let type_byte = TypeByte::from_byte(*bytes.first()?);
    let metadata = Metadata::from_byte(*bytes.get(1)?);
    if !type_byte.names_type() || metadata.is_empty() {
        return None;
    }
    let parts = front_parts(metadata, &bytes[BARE..])?;
    Some(FrontHeader {
        type_byte,
        metadata,
        parts,
        from: BARE + parts.from,
        used: BARE + parts.used,
    })
}
