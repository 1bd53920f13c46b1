//! The place of a geometry in a stream, and what its header says.
use twkb_tree::Kind;

/// One geometry of a blob, as its header and its bytes give it (TWKB, type, precision and
/// metadata; what is reported: profile).
#[derive(Clone, Copy, Debug, PartialEq, Eq)]
pub struct Span {
    /// The number of collections that the geometry is in.
    pub level: u32,
    /// The offset of its type byte, in bytes from the stream's start.
    pub offset: u64,
    /// Its type, never `Ring`.
    pub kind: Kind,
    /// The number of decimals of its coordinates, -8 to 7.
    pub precision: i8,
    /// Its metadata byte.
    pub metadata: u8,
    /// The number of its bytes, from the type byte to its end.
    pub length: u64,
    /// The number of its points, those of its members included.
    pub points: u64,
}
