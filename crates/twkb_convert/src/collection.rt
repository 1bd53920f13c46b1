//! Streams of blobs as one FeatureCollection of GeoJSON: a feature for each blob, then the closing.
ghost use Rattle.std.specs.Prelude.{◌≡◌, ◌++◌, IfOk, IfErr, OnOk};
ghost use Rattle.twkb_tree.specs.Tree.{Tree, IsTree};
ghost use Rattle.twkb_tree.specs.Rows.{rows};
ghost use Rattle.twkb_geojson.specs.Collection.{feature_text};
ghost use Rattle.twkb_convert.specs.Collections.{before_feature, Closes, UnpackedCollection, StoppedCollection};
ghost use Rattle.twkb_convert.specs.Outputs.{IsFlushed};

use crate::blob_text::{BlobText, make_room};
use crate::last_flush::finish;
use crate::listed_stream::list_blobs;
use crate::report::{Cause, ConvertFault, Report};
use std::alloc::{AllocError, Global};
use std::io::{Read, Write};
use twkb_blob::{StreamReader, StreamRoom};
use twkb_flat::Rows;
use twkb_geojson::put_geojson;
use twkb_io::{Input, Output, Sink, Tap};
use twkb_tree::Limits;

/// Writes a stream of blobs as one FeatureCollection of GeoJSON, with a feature for each blob in a
/// line of its own, after the blob was read whole, before the reader is read again; and then the
/// closing (blobs: TWKB; collection: RFC 7946, section 3.3; geometries and lines: profile). The
/// result and the flush are as with `unpack`, with features in place of rows. A blob that is
/// refused stops it after the features of the blobs before, without the closing. Takes memory as
/// `unpack_geojson` does.
pub fn unpack_collection<R: Read, W: Write>(
    alloc: Global,
    reader: &mut Tap<R>,
    writer: &mut Tap<W>,
    limits: Limits,
) -> Result<Report, ConvertFault>
    ensures ok { IfOk result (λ report. UnpackedCollection limits R.remaining W.contents reader.old
        writer.old report reader.new writer.new) }
    ensures err { IfErr result (λ fault. StoppedCollection limits R.remaining W.contents reader.old
        writer.old fault reader.new writer.new) }
    ensures flushed { IsFlushed result writer.new }
{
    let mut output = Output::new(writer);
    let mut room = StreamRoom::new(alloc);
    let mut blobs = StreamReader::new(Input::new(reader), limits, &mut room);
    let mut text = Vec::new(alloc);
    let (mut done, mut taken) = (0, 0);
    let listing = list_blobs(
        &mut Features,
        &mut blobs,
        &mut text,
        &mut output,
        &mut done,
        &mut taken,
    );
    let sending = close(listing, &mut output);
    finish(&mut output, done, taken, sending)
}

// Puts the closing of a collection if all features were sent; a stop before stays, and changes
// nothing. An `Err` is the cause for which it stopped. Takes no memory.
fn close<W: Write>(listing: Result<(), Cause>, output: &mut Output<'_, W>) -> Result<(), Cause>
    ensures { Closes W.contents output.old listing output.new result }
{
    listing?;
    output.put(b"\n]}\n")?;
    Ok(())
}

// The features of a stream's blobs, and the opening of their collection.
#[derive(Drop)]
struct Features;

impl BlobText for Features {
    ghost use Rattle.twkb_convert.specs.Collections.{collection_layout};

    ghost layout = { collection_layout };

    fn first_line() -> &'static [u8] {
        b"{\"type\":\"FeatureCollection\",\"features\":["
    }

    fn read_next<R: Read>(
        &mut self,
        blobs: &mut StreamReader<'_, '_, R>,
        text: &mut Vec<u8>,
    ) -> Result<bool, Cause> {
        let start = blobs.offset();
        if !blobs.next()? {
            return Ok(false);
        }
        make_room(text)?;
        put_feature(start == 0, blobs.rows(), text)?;
        Ok(true)
    }
}

// Appends the feature of the geometry whose rows a form has, in a line of its own after a comma
// unless it is the first. Takes memory; after an `Err` a prefix of that may be appended.
#[inline(always)]
fn put_feature(is_first: bool, form: &Rows, text: &mut Vec<u8>) -> Result<(), AllocError>
    ensures { OnOk result ((g : Tree) → IsTree g → rows 0 g ≡ form.now.flat
        → text.new.items ≡ text.old.items ++ (before_feature is_first ++ feature_text g)) }
{
    text.extend_from_slice(line_start(is_first))?;
    text.extend_from_slice(b"{\"type\":\"Feature\",\"properties\":{},\"geometry\":")?;
    put_geojson(form, text)?;
    text.push(b'}')?;
    Ok(())
}

// The beginning of the line of a feature.
#[inline(always)]
fn line_start(is_first: bool) -> &'static [u8]
    ensures { result.now ≡ before_feature is_first }
{
    if is_first { b"\n" } else { b",\n" }
}
