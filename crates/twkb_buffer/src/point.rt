//! A point in C's layout.

/// A point of two whole numbers in the same unit.
#[repr(C)]
#[derive(Clone, Copy, Debug, PartialEq, Eq)]
pub struct BufferPoint {
    /// The first coordinate: the longitude, if the points are on a globe.
    pub x: i64,
    /// The second coordinate: the latitude, if the points are on a globe.
    pub y: i64,
}
