//! What is packed, and how.
use twkb_column::{Column, Limits, Style};

// A column of a CSV, and how its polylines become blobs.
#[derive(Clone, Copy)]
pub(crate) struct Packing<'a> {
    // The column, and how the CSV is read. The column of ids is not looked at.
    pub(crate) column: Column<'a>,
    // The style of the blobs.
    pub(crate) style: Style,
    // The limits of the blobs.
    pub(crate) limits: Limits,
}
