//! The reasons for which a record is refused.
ghost use Rattle.std.specs.Prelude.{◌≡◌, ◌≤◌, length};
ghost use Rattle.twkb_table.specs.RowFault.{row_words};

use thiserror::Error;
use twkb_polyline::PolyReason;

/// Why a record is not a row of a table, in the order of the checks (profile).
#[derive(Clone, Copy, Debug, PartialEq, Eq, Error)]
#[error("{}", self.text())]
pub enum RowReason {
    /// The first record is missing, or is not the header.
    BadHeader,
    /// The record does not have five fields.
    FieldCount,
    /// The depth is not a canonical decimal from 0 to 999.
    BadDepth,
    /// The kind is none of the eight words.
    BadKind,
    /// The row skips a depth, or a root is a ring, or its parent may not have this kind.
    BadPlace,
    /// The parent is a collection that is already inside as many collections as allowed.
    TooDeep,
    /// The geometry already has as many rows as allowed.
    TooManyNodes,
    /// The id is neither empty nor the canonical decimal of an i64.
    BadId,
    /// A root or a ring has an id.
    IdNotAllowed,
    /// Only one of this row and its parent's first child has an id.
    MixedIds,
    /// The precision is neither empty nor a canonical decimal from -8 to 7.
    BadPrecision,
    /// A root or a member of a collection has no precision.
    PrecisionMissing,
    /// A row that is neither a root nor a member of a collection has a precision.
    PrecisionNotAllowed,
    /// A row of a kind without points has a polyline.
    PolylineNotAllowed,
    /// The polyline is refused at this byte of it, counted from 0 (Encoded Polyline Algorithm
    /// Format).
    #[error("polyline at {0}: {1}")]
    Polyline(usize, PolyReason),
    /// A point of a multipoint does not have exactly one point, or another point has more than one.
    PointCount,
}

impl RowReason {
    /// The reason in a few words, at most 31 bytes, without the place in a polyline. Takes no
    /// memory.
    #[tactic(auto, using(crate::proofs::FaultLaws::short_row))]
    pub fn text(self) -> &'static str
        ensures words { result.now ≡ row_words self }
        ensures short { length (row_words self) ≤ 31 }
    {
        match self {
            RowReason::BadHeader => "bad header",
            RowReason::FieldCount => "not five fields",
            RowReason::BadDepth => "bad depth",
            RowReason::BadKind => "unknown kind",
            RowReason::BadPlace => "kind not allowed there",
            RowReason::TooDeep => "nested too deep",
            RowReason::TooManyNodes => "too many rows in one geometry",
            RowReason::BadId => "bad id",
            RowReason::IdNotAllowed => "id not allowed",
            RowReason::MixedIds => "id on some children only",
            RowReason::BadPrecision => "bad precision",
            RowReason::PrecisionMissing => "precision missing",
            RowReason::PrecisionNotAllowed => "precision not allowed",
            RowReason::PolylineNotAllowed => "polyline not allowed",
            RowReason::Polyline(_, why) => why.text(),
            RowReason::PointCount => "wrong number of points",
        }
    }
}
