//! The header of a CSV, and its text.
ghost use Rattle.std.specs.Prelude.{◌≡◌, [], ◌∷◌, IfOk, IfErr, OnOk};
ghost use Rattle.csv.specs.Records.{fields_of};
ghost use Rattle.twkb_flat.specs.Taking.{IfRefused};
ghost use Rattle.twkb_hex.specs.Records.{text_of};
ghost use Rattle.twkb_hex.specs.Rows.{RefusesHeader, found_in};
ghost use Rattle.twkb_hex.specs.Sending.{FindsHeader, MissesHeader};
ghost use Rattle.twkb_hex.specs.declared.found.Found.TheVariants.{At};

use crate::causes::cause_at;
use crate::found::{Found, find};
use crate::records::read_next;
use crate::report::{HexCause, HexReason};
use crate::row_text::append_row;
use csv::{ByteRecord, Reader};
use std::io::Read;
use twkb_flat::Stop;
use twkb_io::Tap;

// Which field of a header is the column. An `Err` is why there is none.
fn place_in(name: &[u8], header: &ByteRecord) -> Result<usize, HexReason>
    ensures ok { IfOk result (λ place. found_in name.now (fields_of header.now) ≡ At place) }
    ensures err { IfErr result (λ why. RefusesHeader (found_in name.now (fields_of header.now)) why) }
{
    match find(name, header) {
        Found::Absent => Err(HexReason::NoColumn),
        Found::At(place) => Ok(place),
        Found::Twice => Err(HexReason::ColumnTwice),
    }
}

// Makes the text of a header in place of what `text` holds, and returns the place of the column.
// Takes memory. An `Err` is the reason to refuse it, or want of memory.
fn put_header(
    name: &[u8],
    delimiter: u8,
    header: &ByteRecord,
    text: &mut Vec<u8>,
) -> Result<usize, Stop<HexReason>>
    ensures ok { IfOk result (λ place. found_in name.now (fields_of header.now) ≡ At place) }
    ensures own { OnOk result (text.new.items ≡ text_of delimiter (fields_of header.now ∷ [])) }
    ensures err { IfErr result (IfRefused (RefusesHeader (found_in name.now (fields_of header.now)))) }
{
    let place = match place_in(name, header) {
        Ok(place) => place,
        Err(why) => return Err(Stop::Refused(why)),
    };
    text.clear();
    append_row(delimiter, header, header.len(), b"", text)?;
    Ok(place)
}

// Reads the header into `row`, makes its text in place of what `text` holds, and returns the place
// of the column with this name. Takes memory. An `Err` is why there is no header.
pub(crate) fn read_header<R: Read>(
    name: &[u8],
    delimiter: u8,
    csv: &mut Reader<&mut Tap<R>>,
    row: &mut ByteRecord,
    text: &mut Vec<u8>,
) -> Result<usize, HexCause>
    ensures ok { IfOk result (λ place. FindsHeader name.now delimiter R.remaining csv.old place
        (fields_of row.new) text.new.items csv.new) }
    ensures err { IfErr result (λ why. MissesHeader name.now R.remaining csv.old why csv.new) }
{
    if !read_next(csv, row)? {
        return Err(HexCause::Record {
            number: 1,
            reason: HexReason::NoColumn,
        });
    }
    match put_header(name, delimiter, row, text) {
        Ok(place) => Ok(place),
        Err(stop) => Err(cause_at(1, stop)),
    }
}
