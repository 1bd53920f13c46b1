//! Rows of tables, as they stand in files of others.

use std::alloc::AllocError;
use twkb_points::Pt;
use twkb_polyline::encode_into;
use twkb_table::push_decimal;

/// How the records of a table are written.
#[derive(Clone, Copy)]
pub(crate) enum Writing {
    /// Bare fields, LF behind each record.
    Bare,
    /// Each field in quotes, CRLF behind each record.
    Quoted,
}

/// A row, whose points stand beside it.
#[derive(Clone, Copy)]
pub(crate) struct Line {
    pub(crate) depth: u32,
    pub(crate) kind: &'static [u8],
    pub(crate) id: Option<i64>,
    pub(crate) precision: Option<i64>,
}

impl Writing {
    // What stands between two fields.
    fn comma(self) -> &'static [u8] {
        match self {
            Writing::Bare => b",",
            Writing::Quoted => b"\",\"",
        }
    }

    // What stands in front of a record.
    fn begins(self) -> &'static [u8] {
        match self {
            Writing::Bare => b"",
            Writing::Quoted => b"\"",
        }
    }

    // What stands behind a record.
    fn ends(self) -> &'static [u8] {
        match self {
            Writing::Bare => b"\n",
            Writing::Quoted => b"\"\r\n",
        }
    }
}

// Appends a number, if there is one.
fn put_optional(text: &mut Vec<u8>, number: Option<i64>) -> Result<(), AllocError> {
    match number {
        Some(number) => push_decimal(text, number),
        None => Ok(()),
    }
}

// Appends the fields in front of the points.
fn put_fields(text: &mut Vec<u8>, writing: Writing, line: &Line) -> Result<(), AllocError> {
    text.extend_from_slice(writing.begins())?;
    push_decimal(text, i64::from(line.depth))?;
    text.extend_from_slice(writing.comma())?;
    text.extend_from_slice(line.kind)?;
    text.extend_from_slice(writing.comma())?;
    put_optional(text, line.id)?;
    text.extend_from_slice(writing.comma())?;
    put_optional(text, line.precision)?;
    text.extend_from_slice(writing.comma())
}

/// Appends a row.
pub(crate) fn put_line(
    text: &mut Vec<u8>,
    writing: Writing,
    line: &Line,
    points: &[Pt],
) -> Result<(), AllocError> {
    put_fields(text, writing, line)?;
    encode_into(points, text)?;
    text.extend_from_slice(writing.ends())
}
