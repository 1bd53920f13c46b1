//! The records of a rest, and their text with a polyline in the column.
ghost use Rattle.std.specs.Prelude.{◌≡◌, ◌∷◌, [], IfErr, IfOk, OnOk};
ghost use Rattle.csv.specs.Records.{fields_of};
ghost use Rattle.twkb_blob.specs.StreamReaders.{reader_in};
ghost use Rattle.twkb_convert.specs.Listed.{IsBetween};
ghost use Rattle.twkb_records.specs.Rows.{found_in, replaced};
ghost use Rattle.twkb_records.specs.declared.found.Found.TheVariants.{At};
ghost use Rattle.twkb_rest.specs.JoinSending.{EndsRest, FindsHeader, JoinsRow, MissesHeader, NextJoined, RefusesNames};
ghost use Rattle.twkb_rest.specs.Written.{records_text};

use crate::fault::UnpackCause;
use crate::join_fault::{JoinCause, RestReason, stream_cause};
use crate::line::{Lines, Next};
use crate::next_line::read_line;
use csv::{ByteRecord, Reader};
use std::io::Read;
use twkb_blob::StreamReader;
use twkb_convert::Cause;
use twkb_io::Tap;
use twkb_records::{Found, append_row, find, read_next};

// The place of the column, the number of fields of each record, and the byte between them.
#[derive(Clone, Copy)]
pub(crate) struct RestColumn {
    pub(crate) place: usize,
    pub(crate) width: usize,
    pub(crate) delimiter: u8,
}

// The last record read, the polyline made last, and the text of the record with it.
#[derive(Drop)]
pub(crate) struct JoinRoom {
    pub(crate) row: ByteRecord,
    pub(crate) line: Vec<u8>,
    pub(crate) text: Vec<u8>,
}

// The cause to report if a record of the rest is refused.
fn refused(number: u64, reason: RestReason) -> JoinCause
    ensures { result ≡ JoinCause.Rest number reason }
{
    JoinCause::Rest { number, reason }
}

// Which field of a header is the column. An `Err` is why there is none.
fn place_in(name: &[u8], header: &ByteRecord) -> Result<usize, RestReason>
    ensures ok { IfOk result (λ place. found_in name.now (fields_of header.now) ≡ At place) }
    ensures err { IfErr result (λ why. RefusesNames (found_in name.now (fields_of header.now)) why) }
{
    match find(name, header) {
        Found::Absent => Err(RestReason::NoSuchColumn),
        Found::At(place) => Ok(place),
        Found::Twice => Err(RestReason::ColumnTwice),
    }
}

// Makes the text of a record with this polyline in its column, in place of what `text` holds. Takes
// memory.
fn put_row(
    column: RestColumn,
    row: &ByteRecord,
    line: &[u8],
    text: &mut Vec<u8>,
) -> Result<(), JoinCause>
    ensures ok { OnOk result (text.new.items
        ≡ records_text column.delimiter (replaced column.place line.now (fields_of row.now) ∷ [])) }
    ensures err { IfErr result (λ why. why ≡ JoinCause.Column (UnpackCause.Stream Cause.Memory)) }
{
    text.clear();
    if append_row(column.delimiter, row, column.place, line, text).is_err() {
        return Err(stream_cause(Cause::Memory));
    }
    Ok(())
}

// Reads the header of a rest, makes its text, and returns where the column is. Takes memory. An
// `Err` is why there is no header.
pub(crate) fn read_header<Q: Read>(
    name: &[u8],
    delimiter: u8,
    csv: &mut Reader<&mut Tap<Q>>,
    room: &mut JoinRoom,
) -> Result<RestColumn, JoinCause>
    ensures ok { IfOk result (λ column. FindsHeader name.now delimiter Q.remaining csv.old column
        (fields_of room.new.row) room.new.text.items csv.new) }
    ensures err { IfErr result (λ why. MissesHeader name.now Q.remaining csv.old why csv.new) }
{
    let Ok(found) = read_next(csv, &mut room.row) else {
        return Err(JoinCause::RestDevice);
    };
    if !found {
        return Err(refused(1, RestReason::NoSuchColumn));
    }
    let place = match place_in(name, &room.row) {
        Ok(place) => place,
        Err(reason) => return Err(refused(1, reason)),
    };
    let width = room.row.len();
    let names = RestColumn {
        place: width,
        width,
        delimiter,
    };
    put_row(names, &room.row, b"", &mut room.text)?;
    Ok(RestColumn {
        place,
        width,
        delimiter,
    })
}

// Reads the record with this number, and makes its text with the polyline that was made last. Takes
// memory. `taken` is the offset of the polyline's blob. An `Err` is why there is no text.
fn join_row<Q: Read>(
    column: RestColumn,
    number: u64,
    taken: u64,
    csv: &mut Reader<&mut Tap<Q>>,
    room: &mut JoinRoom,
) -> Result<(), JoinCause>
    ensures joins { JoinsRow column number taken Q.remaining room.old.line.items csv.old result room.new.text.items
        csv.new }
{
    let Ok(found) = read_next(csv, &mut room.row) else {
        return Err(JoinCause::RestDevice);
    };
    if !found {
        return Err(JoinCause::NoRecord { offset: taken });
    }
    if room.row.len() != column.width {
        return Err(refused(number, RestReason::FieldCount));
    }
    put_row(column, &room.row, &room.line, &mut room.text)
}

// Reads on after the stream's end: an `Err` if there is a record with this number. Takes memory.
fn end_rest<Q: Read>(
    number: u64,
    csv: &mut Reader<&mut Tap<Q>>,
    room: &mut JoinRoom,
) -> Result<(), JoinCause>
    ensures ends { EndsRest number Q.remaining csv.old result csv.new }
{
    let Ok(found) = read_next(csv, &mut room.row) else {
        return Err(JoinCause::RestDevice);
    };
    if found {
        return Err(refused(number, RestReason::NoBlob));
    }
    Ok(())
}

// Reads the next blob, and the record with this number, and makes the text of both; false if there
// is neither. `taken` is the number of bytes of the blobs before. Takes memory. An `Err` is why
// there is no text.
pub(crate) fn next_joined<R: Read, Q: Read>(
    lines: &mut Lines,
    column: RestColumn,
    number: u64,
    taken: u64,
    blobs: &mut StreamReader<'_, '_, R>,
    csv: &mut Reader<&mut Tap<Q>>,
    room: &mut JoinRoom,
) -> Result<bool, JoinCause>
    requires between { IsBetween (reader_in blobs.old) }
    ensures next { NextJoined column number taken Q.remaining lines.old.first lines.new.first (reader_in blobs.old)
        (reader_in blobs.new) csv.old result room.new.text.items csv.new }
{
    match read_line(lines, blobs, &mut room.line) {
        Ok(Next::Line) => {
            join_row(column, number, taken, csv, room)?;
            Ok(true)
        }
        Ok(Next::End) => {
            end_rest(number, csv, room)?;
            Ok(false)
        }
        Ok(Next::Refused(reason)) => Err(JoinCause::Column(UnpackCause::Line {
            offset: taken,
            reason,
        })),
        Err(why) => Err(stream_cause(why)),
    }
}
