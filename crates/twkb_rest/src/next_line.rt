//! The next linestring of a stream, and its polyline.
ghost use Rattle.std.specs.Prelude.{◌≡◌};
ghost use Rattle.twkb_blob.specs.StreamReaders.{reader_in};
ghost use Rattle.twkb_convert.specs.Listed.{IsBetween};
ghost use Rattle.twkb_rest.specs.JoinSending.{ReadsPolyline};

use crate::line::{Lines, Next};
use std::io::Read;
use twkb_blob::StreamReader;
use twkb_convert::Cause;
use twkb_flat::{NodeId, Work};
use twkb_polyline::encode_into;

// Reads the next blob and, if it can be in the column, makes its polyline in place of what `line`
// holds. The calls that may come before, and what an `Err` says, are as with the listing of any
// stream. Takes memory.
pub(crate) fn read_line<R: Read>(
    lines: &mut Lines,
    blobs: &mut StreamReader<'_, '_, R>,
    line: &mut Vec<u8>,
) -> Result<Next, Cause>
    requires between { IsBetween (reader_in blobs.old) }
    ensures reads { ReadsPolyline lines.old.first lines.new.first (reader_in blobs.old) (reader_in blobs.new)
        line.new.items result }
{
    if !blobs.next()? {
        return Ok(Next::End);
    }
    let (row, points) = blobs.rows().row_at(NodeId(0), &mut Work::new());
    if let Some(reason) = lines.judge(&row) {
        return Ok(Next::Refused(reason));
    }
    line.clear();
    encode_into(points, line)?;
    Ok(Next::Line)
}
