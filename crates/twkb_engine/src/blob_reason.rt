//! Why bytes are no blob.
ghost use Rattle.std.specs.Prelude.{◌≡◌, ◌≤◌, length};
ghost use Rattle.twkb_engine.specs.Texts.{blob_words};

use thiserror::Error;

/// Why an item of a blob is refused (profile). At each item the reasons are tried in this order.
#[derive(Clone, Copy, Debug, PartialEq, Eq, Error)]
#[error("{}", self.text())]
pub enum BlobReason {
    /// The input ends before the item, or inside its varint.
    Truncated,
    /// The type byte has a type of 0, or one above 7.
    BadType,
    /// The extended byte announces a third or a fourth coordinate.
    ExtraDimensions,
    /// A varint of more than ten bytes, or of a number of 2^64 or above.
    BadVarint,
    /// A collection inside as many collections as may be has members.
    TooDeep,
    /// With the root, the counts so far announce more rows than a geometry may have.
    TooManyNodes,
    /// The counts and points so far announce more points than a geometry may have.
    TooManyPoints,
    /// A coordinate would be outside -2^62 to 2^62 - 1.
    CoordinateRange,
    /// A geometry ends at another place than its size says.
    SizeMismatch,
}

impl BlobReason {
    /// The reason in a few English words, at most 31 bytes. Takes no memory.
    #[tactic(auto, using(crate::proofs::Parts::short_blob))]
    pub fn text(self) -> &'static str
        ensures words { result.now ≡ blob_words self }
        ensures short { length (blob_words self) ≤ 31 }
    {
        match self {
            BlobReason::Truncated => "truncated",
            BlobReason::BadType => "unknown type",
            BlobReason::ExtraDimensions => "extra dimensions",
            BlobReason::BadVarint => "bad varint",
            BlobReason::TooDeep => "nested too deep",
            BlobReason::TooManyNodes => "too many nodes",
            BlobReason::TooManyPoints => "too many points",
            BlobReason::CoordinateRange => "coordinate out of range",
            BlobReason::SizeMismatch => "size mismatch",
        }
    }
}
