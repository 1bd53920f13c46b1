//! A record of one field as text (RFC 4180).
ghost use Rattle.std.specs.Prelude.{◌≡◌, ◌++◌, ◌∷◌, [], OnOk, true, false};
ghost use Rattle.csv.specs.Writing as csv_text;
ghost use Rattle.csv.specs.Writing.{quoted, row_text};
ghost use Rattle.twkb_rest.specs.Written.{Grows, written_with};

use std::alloc::AllocError;

// Fast path: whether each byte of a field is above the delimiter and above the quote, and so above
// CR and LF.
#[inline(always)]
#[tactic(auto, using(crate::proofs::TextLemmas::bare_bytes))]
fn is_above(field: &[u8], delimiter: u8) -> bool
    ensures { result ≡ true → csv_text.needs_quotes (written_with delimiter) field.now ≡ false }
{
    let mut least = u8::MAX;
    for byte in field {
        least = least.min(*byte);
    }
    least > delimiter && least > b'"'
}

// Whether a field needs quotes: it has a delimiter, a quote, a CR or a LF.
#[inline(always)]
#[tactic(auto, using(crate::proofs::TextLemmas::bare_bytes))]
fn needs_quotes(field: &[u8], delimiter: u8) -> bool
    ensures { result ≡ csv_text.needs_quotes (written_with delimiter) field.now }
{
    if is_above(field, delimiter) {
        return false;
    }
    for byte in field {
        if *byte == delimiter || *byte == b'"' || *byte == b'\r' || *byte == b'\n' {
            return true;
        }
    }
    false
}

// Appends a byte of a field between quotes: a quote twice. Takes memory; if it is refused, a prefix
// of that may be appended.
#[tactic(auto, unfolding(csv::specs::Writing::escaped), using(crate::proofs::TextLemmas::grows_by))]
fn append_escaped(byte: u8, delimiter: u8, text: &mut Vec<u8>) -> Result<(), AllocError>
    ensures ok { OnOk result (text.new.items
        ≡ text.old.items ++ csv_text.escaped (written_with delimiter) (byte ∷ [])) }
    ensures grown { Grows text.old.items text.new.items }
{
    if byte == b'"' {
        return text.extend_from_slice(b"\"\"");
    }
    text.push(byte)?;
    Ok(())
}

// Appends a field between quotes, with each quote in it twice. Takes memory; if it is refused, a
// prefix of that may be appended.
#[inline(never)]
fn append_quoted(field: &[u8], delimiter: u8, text: &mut Vec<u8>) -> Result<(), AllocError>
    ensures ok { OnOk result (text.new.items ≡ text.old.items ++ quoted (written_with delimiter) field.now) }
    ensures grown { Grows text.old.items text.new.items }
{
    text.extend_from_slice(b"\"")?;
    for byte in field {
        append_escaped(*byte, delimiter, text)?;
    }
    text.extend_from_slice(b"\"")?;
    Ok(())
}

// Makes the text of a record of one field, which needs quotes, of the bytes of the field. Takes
// memory for a second text.
#[inline(never)]
fn quote_record(delimiter: u8, text: &mut Vec<u8>) -> Result<(), AllocError>
    requires { csv_text.needs_quotes (written_with delimiter) text.old.items ≡ true }
    ensures { OnOk result (text.new.items ≡ row_text (written_with delimiter) (text.old.items ∷ [])) }
{
    let mut quoted = Vec::new(*text.allocator());
    append_quoted(text, delimiter, &mut quoted)?;
    quoted.push(b'\n')?;
    *text = quoted;
    Ok(())
}

// Makes the text of a record of one field of the bytes of the field: two quotes if there is none,
// quotes around those that need them, and LF at the end. Takes memory; after an `Err` nothing is
// known of the text.
#[inline(always)]
pub(crate) fn end_record(delimiter: u8, text: &mut Vec<u8>) -> Result<(), AllocError>
    ensures { OnOk result (text.new.items ≡ row_text (written_with delimiter) (text.old.items ∷ [])) }
{
    if text.is_empty() {
        text.extend_from_slice(b"\"\"\n")?;
        return Ok(());
    }
    if needs_quotes(text, delimiter) {
        return quote_record(delimiter, text);
    }
    text.push(b'\n')?;
    Ok(())
}
