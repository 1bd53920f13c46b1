//! The place of the column in the header.
ghost use Rattle.std.specs.Prelude.{◌≡◌};
ghost use Rattle.csv.specs.Records.{fields_of};
ghost use Rattle.twkb_hex.specs.Rows.{found_in, one_more};

use crate::row_text::field_at;
use csv::ByteRecord;

// Which field of the header has the name of the column.
#[derive(Clone, Copy, PartialEq, Eq)]
pub(crate) enum Found {
    // None so far.
    Absent,
    // The one at this place.
    At(usize),
    // More than one.
    Twice,
}

// What is known after one more field that has the name, at this place.
fn one_more(found: Found, place: usize) -> Found
    ensures { result ≡ one_more found place }
{
    match found {
        Found::Absent => Found::At(place),
        Found::At(_) | Found::Twice => Found::Twice,
    }
}

// Which field of a header has this name.
pub(crate) fn find(name: &[u8], header: &ByteRecord) -> Found
    ensures { result ≡ found_in name.now (fields_of header.now) }
{
    let mut found = Found::Absent;
    for place in 0..header.len() {
        if field_at(header, place) == name {
            found = one_more(found, place);
        }
    }
    found
}
