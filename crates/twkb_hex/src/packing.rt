//! Which column is packed or unpacked, and what its digits are.
use twkb_csv::Column;
use twkb_writer::Style;

/// A column of a CSV whose polylines become digits of blobs.
#[derive(Clone, Copy)]
pub struct Packing<'a> {
    /// The column, and how the CSV is read.
    pub column: Column<'a>,
    /// The style of the blobs.
    pub style: Style,
    /// Whether the digits stand alone, without `\x` before them.
    pub is_bare: bool,
}

/// A column of a CSV whose digits of blobs become polylines.
#[derive(Clone, Copy)]
pub struct Unpacking<'a> {
    /// The name of the column: a field of the CSV's first record.
    pub name: &'a [u8],
    /// The byte between two fields, which should be none of `"`, CR and LF.
    pub delimiter: u8,
}
