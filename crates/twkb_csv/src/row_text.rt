//! The text of the records that records of a CSV name.
ghost use Rattle.std.specs.Prelude.{◌≡◌, ◌++◌, ◌∷◌, [], OnOk, OnErr};
ghost use Rattle.csv.specs.Writing.{default_writer, row_text};
ghost use Rattle.twkb_csv.specs.Named as named;
ghost use Rattle.twkb_csv.specs.Named.{Grows, header, header_named, line_named, linestring, member, no_kind};
ghost use Rattle.twkb_csv.specs.Named.{one_field, record_named, root, roots, text_of};

use crate::column::Column;
use crate::field_text::append_field;
use crate::found::Found;
use itoa::Buffer;
use std::alloc::AllocError;

// Appends the record that stands for an absent column. Takes memory; if it is refused, the text is
// as it was.
#[tactic(auto, unfolding(csv::specs::Writing::fields_text, csv::specs::Writing::is_blank))]
fn put_absent(text: &mut Vec<u8>) -> Result<(), AllocError>
    ensures ok { OnOk result (text.new.items ≡ text.old.items ++ text_of (one_field ∷ [])) }
    ensures same { OnErr result (text.new.items ≡ text.old.items) }
{
    text.extend_from_slice(b"x\n")
}

// Appends the header, and the record that stands for a column that is there twice. Takes memory; if
// it is refused, the text is as it was.
#[tactic(auto, unfolding(csv::specs::Writing::fields_text, csv::specs::Writing::is_blank))]
fn put_twice(text: &mut Vec<u8>) -> Result<(), AllocError>
    ensures ok { OnOk result (text.new.items ≡ text.old.items ++ text_of (header ∷ no_kind ∷ [])) }
    ensures same { OnErr result (text.new.items ≡ text.old.items) }
{
    text.extend_from_slice(b"depth,kind,id,precision,polyline\n0,,,,\n")
}

// Appends the header. Takes memory; if it is refused, the text is as it was.
#[tactic(auto, unfolding(csv::specs::Writing::fields_text, csv::specs::Writing::is_blank))]
fn put_names(text: &mut Vec<u8>) -> Result<(), AllocError>
    ensures ok { OnOk result (text.new.items ≡ text.old.items ++ text_of (header ∷ [])) }
    ensures same { OnErr result (text.new.items ≡ text.old.items) }
{
    text.extend_from_slice(b"depth,kind,id,precision,polyline\n")
}

// Appends the header, and with ids the record of a multilinestring. Takes memory; if it is refused,
// the text is as it was.
fn put_found(column: &Column<'_>, text: &mut Vec<u8>) -> Result<(), AllocError>
    ensures ok { OnOk result (text.new.items
        ≡ text.old.items ++ text_of (header ∷ roots column.now.ids column.now.precision)) }
    ensures same { OnErr result (text.new.items ≡ text.old.items) }
{
    match column.ids {
        None => put_names(text),
        Some(_) => put_root(column.precision, text),
    }
}

// Appends the text of the records that the header of a CSV names. Takes memory; if it is refused,
// the text is as it was.
pub(crate) fn put_header(
    column: &Column<'_>,
    found: Found,
    text: &mut Vec<u8>,
) -> Result<(), AllocError>
    ensures ok { OnOk result (text.new.items ≡ text.old.items ++ text_of (header_named column.now found)) }
    ensures same { OnErr result (text.new.items ≡ text.old.items) }
{
    match found {
        Found::Absent => put_absent(text),
        Found::At(_) => put_found(column, text),
        Found::Twice => put_twice(text),
    }
}

// Whether a field is one of these words.
#[inline(always)]
fn is_among(words: &[&[u8]], field: &[u8]) -> bool
    ensures { result ≡ named.is_among words.now field.now }
{
    for word in words {
        if field == *word {
            return true;
        }
    }
    false
}

// Whether a field is a word that other programs write for a missing value.
#[inline(always)]
fn is_missing(field: &[u8]) -> bool
    ensures { result ≡ named.is_missing field.now }
{
    field == b"NULL".as_slice()
        || field == b"\\N".as_slice()
        || field == b"NA".as_slice()
        || field == b"NaN".as_slice()
        || field == b"NaT".as_slice()
        || field == b"NONE".as_slice()
        || field == b"[NULL]".as_slice()
}

// Appends the line of a linestring with this polyline. Takes memory; if it is refused, a prefix of
// the line may be appended.
#[inline(always)]
fn append_line(precision: i8, polyline: &[u8], text: &mut Vec<u8>) -> Result<(), AllocError>
    ensures ok { OnOk result (text.new.items
        ≡ text.old.items ++ row_text default_writer (linestring precision polyline.now)) }
    ensures grown { Grows text.old.items text.new.items }
{
    let mut buffer = Buffer::new();
    text.extend_from_slice(b"0,linestring,,")?;
    append_field(buffer.format(precision).as_bytes(), text)?;
    text.extend_from_slice(b",")?;
    append_field(polyline, text)?;
    text.extend_from_slice(b"\n")?;
    Ok(())
}

// Appends the header, and the line of a multilinestring. Takes memory; if it is refused, a prefix of
// that may be appended.
fn append_root(precision: i8, text: &mut Vec<u8>) -> Result<(), AllocError>
    ensures ok { OnOk result (text.new.items
        ≡ text.old.items ++ text_of (header ∷ root precision ∷ [])) }
    ensures grown { Grows text.old.items text.new.items }
{
    let mut buffer = Buffer::new();
    text.extend_from_slice(b"depth,kind,id,precision,polyline\n0,multilinestring,,")?;
    append_field(buffer.format(precision).as_bytes(), text)?;
    text.extend_from_slice(b",\n")?;
    Ok(())
}

// Appends the header, and the line of a multilinestring. Takes memory; if it is refused, the text is
// as it was.
fn put_root(precision: i8, text: &mut Vec<u8>) -> Result<(), AllocError>
    ensures ok { OnOk result (text.new.items
        ≡ text.old.items ++ text_of (header ∷ root precision ∷ [])) }
    ensures same { OnErr result (text.new.items ≡ text.old.items) }
{
    let start = text.len();
    let Ok(()) = append_root(precision, text) else {
        text.truncate(start);
        return Err(AllocError);
    };
    Ok(())
}

// Appends the line of a member of a multilinestring with this id and polyline. Takes memory; if it
// is refused, a prefix of the line may be appended.
fn append_member(id: &[u8], polyline: &[u8], text: &mut Vec<u8>) -> Result<(), AllocError>
    ensures ok { OnOk result (text.new.items
        ≡ text.old.items ++ row_text default_writer (member id.now polyline.now)) }
    ensures grown { Grows text.old.items text.new.items }
{
    text.extend_from_slice(b"1,linestring,")?;
    append_field(id, text)?;
    text.extend_from_slice(b",,")?;
    append_field(polyline, text)?;
    text.extend_from_slice(b"\n")?;
    Ok(())
}

// Appends the line of a polyline: that of a linestring, or that of a member with this id. Takes
// memory; if it is refused, the text is as it was.
#[inline(always)]
fn put_line(
    column: &Column<'_>,
    id: &[u8],
    polyline: &[u8],
    text: &mut Vec<u8>,
) -> Result<(), AllocError>
    ensures ok { OnOk result (text.new.items ≡ text.old.items
        ++ row_text default_writer (line_named column.now.ids column.now.precision id.now polyline.now)) }
    ensures same { OnErr result (text.new.items ≡ text.old.items) }
{
    let start = text.len();
    let appended = match column.ids {
        None => append_line(column.precision, polyline, text),
        Some(_) => append_member(id, polyline, text),
    };
    let Ok(()) = appended else {
        text.truncate(start);
        return Err(AllocError);
    };
    Ok(())
}

// Appends the text of the record that a record of a CSV names, given its field of ids, its field of
// the column, and whether it has as many fields as the header. Takes memory; if it is refused, the text is as it
// was.
#[inline(always)]
#[tactic(auto, unfolding(csv::specs::Writing::fields_text, csv::specs::Writing::is_blank))]
pub(crate) fn put_row(
    column: &Column<'_>,
    is_right: bool,
    id: &[u8],
    field: &[u8],
    text: &mut Vec<u8>,
) -> Result<(), AllocError>
    ensures ok { OnOk result (text.new.items
        ≡ text.old.items ++ row_text default_writer (record_named column.now is_right id.now field.now)) }
    ensures same { OnErr result (text.new.items ≡ text.old.items) }
{
    if !is_right {
        return text.extend_from_slice(b"x\n");
    }
    if is_among(column.nulls, field) {
        return put_line(column, id, b"", text);
    }
    if is_missing(field) {
        return text.extend_from_slice(b",,,,\n");
    }
    put_line(column, id, field, text)
}
