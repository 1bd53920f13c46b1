//! The reasons for which a precision and a shape make no geometry.
use thiserror::Error;

/// Why a precision and a shape make no geometry, in the order of the tests.
#[derive(Clone, Copy, Debug, PartialEq, Eq, Error)]
pub enum GeomFault {
    /// The precision is not from -8 to 7.
    #[error("precision not from -8 to 7")]
    BadPrecision,
    /// There are ids, but no members, or not as many members as ids.
    #[error("not one id for each member")]
    BadIds,
}
