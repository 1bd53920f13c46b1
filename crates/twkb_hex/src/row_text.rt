//! The text of a record with one field replaced (RFC 4180).
ghost use Rattle.std.specs.Prelude.{◌≡◌, ◌↔◌, ◌++◌, ◌∷◌, ◌<◌, ◌≤◌, [], IsTrue, OnOk, get_or, length};
ghost use Rattle.csv.specs.Records.{fields_of};
ghost use Rattle.csv.specs.Writing as csv_text;
ghost use Rattle.csv.specs.Writing.{field_text, next_sep, quoted, row_body, row_text};
ghost use Rattle.twkb_hex.specs.Records.{end_of_row, written_with};
ghost use Rattle.twkb_hex.specs.Rows.{replaced};

use csv::ByteRecord;
use std::alloc::AllocError;

// Whether a field needs quotes: it has the delimiter, a quote, a CR or a LF.
#[tactic(auto, using(crate::proofs::TextLemmas::bare_bytes))]
fn needs_quotes(delimiter: u8, field: &[u8]) -> bool
    ensures { result ≡ csv_text.needs_quotes (written_with delimiter) field.now }
{
    for byte in field {
        if *byte == delimiter || *byte == b'"' || *byte == b'\r' || *byte == b'\n' {
            return true;
        }
    }
    false
}

// Appends a byte of a field between quotes: a quote twice. Takes memory.
#[tactic(auto, unfolding(csv::specs::Writing::escaped))]
fn append_escaped(delimiter: u8, byte: u8, text: &mut Vec<u8>) -> Result<(), AllocError>
    ensures { OnOk result (text.new.items
        ≡ text.old.items ++ csv_text.escaped (written_with delimiter) (byte ∷ [])) }
{
    if byte == b'"' {
        return text.extend_from_slice(b"\"\"");
    }
    text.push(byte)?;
    Ok(())
}

// Appends a field between quotes, with each quote in it twice. Takes memory.
fn append_quoted(delimiter: u8, field: &[u8], text: &mut Vec<u8>) -> Result<(), AllocError>
    ensures { OnOk result (text.new.items ≡ text.old.items ++ quoted (written_with delimiter) field.now) }
{
    text.push(b'"')?;
    for byte in field {
        append_escaped(delimiter, *byte, text)?;
    }
    text.push(b'"')?;
    Ok(())
}

// Appends a field, in quotes if it needs them. Takes memory.
fn append_field(delimiter: u8, field: &[u8], text: &mut Vec<u8>) -> Result<(), AllocError>
    ensures { OnOk result (text.new.items ≡ text.old.items ++ field_text (written_with delimiter) field.now) }
{
    if needs_quotes(delimiter, field) {
        append_quoted(delimiter, field, text)
    } else {
        text.extend_from_slice(field)
    }
}

// The field of a record at a place; empty if it has none there.
pub(crate) fn field_at(row: &ByteRecord, index: usize) -> &[u8]
    ensures { result.now ≡ get_or (fields_of row.now) index [] }
{
    match row.get(index) {
        Some(field) => field,
        None => b"",
    }
}

// The field at a place of a record with the field at `place` replaced.
fn field_of<'a>(row: &'a ByteRecord, place: usize, made: &'a [u8], index: usize) -> &'a [u8]
    requires { index < length (fields_of row.now) }
    ensures { result.now ≡ get_or (replaced place made.now (fields_of row.now)) index [] }
{
    if index == place {
        made
    } else {
        field_at(row, index)
    }
}

// Appends what is before the field at a place: the delimiter, but nothing before the first. Takes
// memory.
fn append_separator(delimiter: u8, index: usize, text: &mut Vec<u8>) -> Result<(), AllocError>
    ensures { OnOk result (text.new.items ≡ text.old.items ++ next_sep (written_with delimiter) index) }
{
    if index == 0 {
        return Ok(());
    }
    text.push(delimiter)?;
    Ok(())
}

// Appends the fields of a record with the field at `place` replaced, and what is between them.
// Takes memory.
fn append_fields(
    delimiter: u8,
    row: &ByteRecord,
    place: usize,
    made: &[u8],
    text: &mut Vec<u8>,
) -> Result<(), AllocError>
    ensures { OnOk result (text.new.items ≡ text.old.items
        ++ row_body (written_with delimiter) (replaced place made.now (fields_of row.now))) }
{
    for index in 0..row.len() {
        append_separator(delimiter, index, text)?;
        append_field(delimiter, field_of(row, place, made, index), text)?;
    }
    Ok(())
}

// Whether a record shows no byte: it has at most one field, and the text, which had `start` bytes
// before it, has no more.
fn shows_nothing(fields: usize, start: usize, end: usize) -> bool
    ensures { IsTrue result ↔ ((fields ≤ 1) × (end ≡ start)) }
{
    fields <= 1 && end == start
}

// Appends the end of a record: LF, after two quotes if the record shows no byte. Takes memory.
fn append_end(is_blank: bool, text: &mut Vec<u8>) -> Result<(), AllocError>
    ensures { OnOk result (text.new.items ≡ text.old.items ++ end_of_row is_blank) }
{
    if is_blank {
        return text.extend_from_slice(b"\"\"\n");
    }
    text.push(b'\n')?;
    Ok(())
}

// Appends the text of a record with the field at `place` replaced; of the record as it is, if it has
// no field there. Takes memory; after an `Err` nothing is known of what was appended.
pub(crate) fn append_row(
    delimiter: u8,
    row: &ByteRecord,
    place: usize,
    made: &[u8],
    text: &mut Vec<u8>,
) -> Result<(), AllocError>
    ensures { OnOk result (text.new.items ≡ text.old.items
        ++ row_text (written_with delimiter) (replaced place made.now (fields_of row.now))) }
{
    let start = text.len();
    append_fields(delimiter, row, place, made, text)?;
    let is_blank = shows_nothing(row.len(), start, text.len());
    append_end(is_blank, text)?;
    Ok(())
}
