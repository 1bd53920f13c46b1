//! A field of a record as text (RFC 4180).
ghost use Rattle.std.specs.Prelude.{◌≡◌, ◌++◌, ◌∷◌, [], OnOk, false, true};
ghost use Rattle.csv.specs.Writing as csv_text;
ghost use Rattle.csv.specs.Writing.{default_writer, field_text, quoted};
ghost use Rattle.twkb_csv.specs.Named.{Grows};

use std::alloc::AllocError;

// The least byte after the comma: none from it on needs quotes.
const FIRST_HIGH: u8 = 45;

// Fast path: whether no byte of a field is below `FIRST_HIGH`.
#[inline(always)]
#[tactic(auto, using(crate::proofs::TextLemmas::bare_bytes))]
fn is_high(field: &[u8]) -> bool
    ensures { result ≡ true → csv_text.needs_quotes default_writer field.now ≡ false }
{
    let mut least = u8::MAX;
    for byte in field {
        least = least.min(*byte);
    }
    least >= FIRST_HIGH
}

// Whether a field needs quotes: it has a comma, a quote, a CR or a LF.
#[inline(always)]
#[tactic(auto, using(crate::proofs::TextLemmas::bare_bytes))]
fn needs_quotes(field: &[u8]) -> bool
    ensures { result ≡ csv_text.needs_quotes default_writer field.now }
{
    if is_high(field) {
        return false;
    }
    for byte in field {
        if *byte == b',' || *byte == b'"' || *byte == b'\r' || *byte == b'\n' {
            return true;
        }
    }
    false
}

// Appends a field between quotes, with each quote in it twice. Takes memory; if it is refused, a
// prefix of that may be appended.
#[inline(never)]
fn append_quoted(field: &[u8], text: &mut Vec<u8>) -> Result<(), AllocError>
    ensures ok { OnOk result (text.new.items ≡ text.old.items ++ quoted default_writer field.now) }
    ensures grown { Grows text.old.items text.new.items }
{
    text.extend_from_slice(b"\"")?;
    for byte in field {
        append_escaped(*byte, text)?;
    }
    text.extend_from_slice(b"\"")?;
    Ok(())
}

// Appends a byte of a field between quotes: a quote twice. Takes memory; if it is refused, a prefix
// of that may be appended.
#[tactic(auto, unfolding(csv::specs::Writing::escaped), using(crate::proofs::TextLemmas::grows_by))]
fn append_escaped(byte: u8, text: &mut Vec<u8>) -> Result<(), AllocError>
    ensures ok { OnOk result (text.new.items ≡ text.old.items ++ csv_text.escaped default_writer (byte ∷ [])) }
    ensures grown { Grows text.old.items text.new.items }
{
    if byte == b'"' {
        return text.extend_from_slice(b"\"\"");
    }
    text.push(byte)?;
    Ok(())
}

// Appends a field, in quotes if it needs them. Takes memory; if it is refused, a prefix of that may
// be appended.
#[inline(always)]
#[tactic(auto, using(crate::proofs::TextLemmas::grows_by))]
pub(crate) fn append_field(field: &[u8], text: &mut Vec<u8>) -> Result<(), AllocError>
    ensures ok { OnOk result (text.new.items ≡ text.old.items ++ field_text default_writer field.now) }
    ensures grown { Grows text.old.items text.new.items }
{
    if needs_quotes(field) {
        append_quoted(field, text)
    } else {
        text.extend_from_slice(field)
    }
}
