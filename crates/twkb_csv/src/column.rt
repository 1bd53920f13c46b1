//! Which column of a CSV is read, and how.

/// A column of a CSV that holds polylines, and how the CSV is read.
#[derive(Clone, Copy)]
pub struct Column<'a> {
    /// The name of the column: a field of the CSV's first record.
    pub name: &'a [u8],
    /// The name of the column of ids, if the polylines are the lines of one multilinestring that have
    /// these ids, and no linestrings of their own.
    pub ids: Option<&'a [u8]>,
    /// Decimals of both coordinates, -8 to 7.
    pub precision: i8,
    /// The words that stand for a missing polyline, beside the empty field.
    pub nulls: &'a [&'a [u8]],
    /// The byte between two fields, which should be none of `"`, CR and LF.
    pub delimiter: u8,
}
