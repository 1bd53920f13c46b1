//! The texts that are made of the geometries of a stream's blobs: rows of a table, or lines of
//! GeoJSON.
ghost use Rattle.std.specs.Prelude.{◌≡◌, [], ◌++◌, OnOk};
ghost use Rattle.twkb_tree.specs.Tree.{Tree, IsTree};
ghost use Rattle.twkb_tree.specs.Rows.{rows};
ghost use Rattle.twkb_geojson.specs.Value.{line_of};
ghost use Rattle.twkb_blob.specs.StreamReaders.{reader_in};
ghost use Rattle.twkb_convert.specs.Listed.{IsBetween, ReadsText};
ghost use Rattle.twkb_convert.specs.Listings.{Layout};

use crate::report::Cause;
use std::alloc::AllocError;
use std::io::Read;
use twkb_blob::StreamReader;
use twkb_flat::{Rows, Work};
use twkb_geojson::put_geojson;
use twkb_table::{header_text, put_flat_rows};

// Makes the text of each blob of a stream.
pub(crate) trait BlobText {
    // What is written before the first blob, and for each blob.
    ghost layout: { Layout };

    // The text that is written before the first blob; it may be empty. Takes no memory.
    fn first_line() -> &'static [u8]
        ensures text { result.now ≡ layout.first };

    // Reads the next blob, makes its text in place of what `text` holds, and returns true; false if
    // there is none. No call of the reader or of its input may have failed before, and none of the
    // reader may have found the end; so it must not be called again after a false or an `Err`,
    // which leaves `text` as it was, empty, or with a prefix of the text of this blob. An `Err` is
    // why there is no text: a fault of the reader, or that memory was refused. Takes memory.
    fn read_next<R: Read>(
        &mut self,
        blobs: &mut StreamReader<'_, '_, R>,
        text: &mut Vec<u8>,
    ) -> Result<bool, Cause>
        requires between { IsBetween (reader_in blobs.old) }
        ensures reads { ReadsText layout (reader_in blobs.old) (reader_in blobs.new) text.new.items result };
}

// The bytes that a text has room for at first.
const FIRST_ROOM: usize = 128;

// Empties a text, and reserves room for `FIRST_ROOM` bytes if the text has less, enough for a small
// blob: a text that grew from nothing would ask for memory several times. Takes memory; after an
// `Err` the text is empty.
#[inline(always)]
pub(crate) fn make_room(text: &mut Vec<u8>) -> Result<(), AllocError>
    ensures empty { text.new.items ≡ [] }
{
    text.clear();
    if text.capacity() < FIRST_ROOM {
        text.reserve(FIRST_ROOM)?;
    }
    Ok(())
}

// The table of a stream: the header's line, and the rows of each blob's geometry.
#[derive(Drop)]
pub(crate) struct TableRows;

impl BlobText for TableRows {
    ghost use Rattle.twkb_convert.specs.Listings.{table_layout};

    ghost layout = { table_layout };

    fn first_line() -> &'static [u8] {
        header_text()
    }

    fn read_next<R: Read>(
        &mut self,
        blobs: &mut StreamReader<'_, '_, R>,
        text: &mut Vec<u8>,
    ) -> Result<bool, Cause> {
        if !blobs.next()? {
            return Ok(false);
        }
        make_room(text)?;
        put_flat_rows(blobs.rows(), &mut Work::new(), text)?;
        Ok(true)
    }
}

// The GeoJSON of a stream: the text of each blob's geometry, in a line.
#[derive(Drop)]
pub(crate) struct GeojsonLines;

impl BlobText for GeojsonLines {
    ghost use Rattle.twkb_convert.specs.Listings.{geojson_layout};

    ghost layout = { geojson_layout };

    fn first_line() -> &'static [u8] {
        b""
    }

    fn read_next<R: Read>(
        &mut self,
        blobs: &mut StreamReader<'_, '_, R>,
        text: &mut Vec<u8>,
    ) -> Result<bool, Cause> {
        if !blobs.next()? {
            return Ok(false);
        }
        make_room(text)?;
        put_geojson_line(blobs.rows(), text)?;
        Ok(true)
    }
}

// Appends the text of the geometry whose rows a form has, and LF. Takes memory; after an `Err` a
// prefix of the line may be appended.
#[inline(always)]
fn put_geojson_line(form: &Rows, text: &mut Vec<u8>) -> Result<(), AllocError>
    ensures { OnOk result ((g : Tree) → IsTree g → rows 0 g ≡ form.now.flat
        → text.new.items ≡ text.old.items ++ line_of g) }
{
    put_geojson(form, text)?;
    text.push(b'\n')?;
    Ok(())
}
