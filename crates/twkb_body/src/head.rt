//! A header, and the place of its geometry.
ghost use Rattle.std.specs.Prelude.{◌+◌, ◌<◌, ◌^◌};
ghost use Rattle.twkb_tree.specs.Tree.{IsPrecision};

use twkb_tree::Kind;

/// A header: what its type byte and metadata byte say, its size if it has one, and how many bytes
/// of the blob come before those that the size counts; and the depth and the id of its geometry.
#[derive(Clone, Copy, Debug)]
pub struct Head {
    /// The number of bytes that the geometry declares to have after its size.
    pub size: Option<u64>,
    /// The number of bytes of the blob before those that a size counts.
    pub from: u64,
    /// Its id, as a member.
    pub id: Option<i64>,
    /// The number of collections round the geometry.
    pub depth: u32,
    /// Its type, never `Ring`.
    pub kind: Kind,
    /// Decimals of both coordinates, -8 to 7.
    pub precision: i8,
    /// The metadata byte.
    pub metadata: u8,
    ghost fits: { IsPrecision precision },
    ghost shallow: { depth + 2 < 2 ^ 32 },
}

impl Head {
    /// Makes a placeholder, kept until a header is read: the head of a point at depth 0, without
    /// size and id; precision, metadata byte and `from` are 0. Takes no memory.
    pub fn none() -> Head {
        Head {
            size: None,
            from: 0,
            id: None,
            depth: 0,
            kind: Kind::Point,
            precision: 0,
            metadata: 0,
        }
    }
}
