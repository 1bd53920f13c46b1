//! Rows written as records by the writer of `csv`.
ghost use Rattle.std.specs.Prelude.{◌≡◌, [], ◌∷◌, OnOk, IfOk};
ghost use Rattle.csv.specs.Writing.{default_writer, row_text};
ghost use Rattle.twkb_flat.specs.Rows.{row_with};
ghost use Rattle.twkb_table.specs.Record.{optional, record_seen};
ghost use Rattle.twkb_table.specs.Text.{row_lines, IsBare, IsReady, Writes, text_of};

use crate::fields::Fields;
use csv::Writer;
use itoa::Buffer;
use std::alloc::{AllocError, Global};
use twkb_flat::Row;
use twkb_points::Pt;
use twkb_polyline::encode_into;

// A writer of `csv` into a text, with room for the polyline of one row.
#[derive(Drop)]
pub(crate) struct RecordWriter {
    writer: Writer<Vec<u8>>,
    line: Vec<u8>,
}

impl RecordWriter {
    // Makes a writer that has written no record. Takes no memory.
    pub(crate) fn new(alloc: Global) -> RecordWriter
        ensures ready { IsReady result.writer }
        ensures empty { text_of result.writer ≡ [] }
    {
        RecordWriter {
            writer: Writer::from_writer(Vec::new(alloc)),
            line: Vec::new(alloc),
        }
    }

    // Appends the record of a row with its points to the text; the writer must be between two
    // records. Takes memory; after an `Err` nothing is known of the text, and the writer must not
    // be used again.
    pub(crate) fn write_row(&mut self, row: &Row, points: &[Pt]) -> Result<(), AllocError>
        requires ready { IsReady self.old.writer }
        ensures { OnOk result (Writes self.old.writer self.new.writer (row_lines (row_with row.now points.now ∷ []))) }
    {
        self.line.clear();
        encode_into(points, &mut self.line)?;
        let mut depth = Buffer::new();
        let mut id = Buffer::new();
        let mut precision = Buffer::new();
        let fields = Fields {
            depth: number_field(Some(i64::from(row.depth)), &mut depth),
            kind: row.kind.word(),
            id: number_field(row.id, &mut id),
            precision: number_field(widened(row.precision), &mut precision),
            polyline: self.line.as_slice(),
        };
        write_record(&mut self.writer, &fields)
    }

    // Gives up the writer, and returns the text of all records. Takes memory; an `Err` is want of
    // it.
    pub(crate) fn into_text(self) -> Result<Vec<u8>, AllocError>
        ensures { IfOk result (λ text. text.items ≡ text_of self.writer) }
    {
        let Ok(text) = self.writer.into_inner() else {
            return Err(AllocError);
        };
        Ok(text)
    }
}

// Appends a record of five fields to the text of a writer, which must be between two records. Takes
// memory for the text, and fails only if it is refused, since all records have as many fields.
fn write_record(writer: &mut Writer<Vec<u8>>, fields: &Fields<'_>) -> Result<(), AllocError>
    requires ready { IsReady writer.old }
    ensures { OnOk result (Writes writer.old writer.new (row_text default_writer (record_seen fields.now))) }
{
    let Ok(()) = writer.write_fields(&[
        fields.depth,
        fields.kind,
        fields.id,
        fields.precision,
        fields.polyline,
    ]) else {
        return Err(AllocError);
    };
    Ok(())
}

// The canonical decimal of a number, made in the buffer, or an empty field if there is no number.
fn number_field(number: Option<i64>, buffer: &mut Buffer) -> &[u8]
    ensures spelled { result.now ≡ optional number }
    ensures bare { IsBare result.now }
{
    match number {
        Some(number) => buffer.format(number).as_bytes(),
        None => b"",
    }
}

// A precision, if there is one, as an i64.
fn widened(precision: Option<i8>) -> Option<i64>
    ensures { result ≡ precision }
{
    Some(i64::from(precision?))
}
