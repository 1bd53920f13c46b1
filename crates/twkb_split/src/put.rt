//! Sending a record of the rest, and the blob after it.
ghost use Rattle.std.specs.Prelude.{IfErr, OnOk};
ghost use Rattle.twkb_io.specs.Bytes.{bytes_of};
ghost use Rattle.twkb_io.specs.Outputs.{Took};
ghost use Rattle.twkb_split.specs.Sending.{IsCut, IsPieceCut};

use crate::causes::cause_of_output;
use crate::piece::Made;
use std::io::Write;
use twkb_column::ColumnCause;
use twkb_io::{Output, Sink};

// Sends these bytes. An `Err` is the cause to report if the output refused them.
pub(crate) fn put<W: Write>(bytes: &[u8], output: &mut Output<'_, W>) -> Result<(), ColumnCause>
    ensures ok { OnOk result (Took W.contents output.old bytes.now output.new) }
    ensures err { IfErr result (λ why. IsCut W.contents output.old bytes.now why output.new) }
{
    match output.put(bytes) {
        Ok(()) => Ok(()),
        Err(fault) => Err(cause_of_output(fault)),
    }
}

// Sends the text of a record of the rest, and then its blob. An `Err` is the cause to report if an
// output refused its bytes.
pub(crate) fn put_piece<W: Write, V: Write>(
    made: &Made,
    blobs: &mut Output<'_, W>,
    rest: &mut Output<'_, V>,
) -> Result<(), ColumnCause>
    ensures blob { OnOk result (Took W.contents blobs.old (bytes_of made.now.blob) blobs.new) }
    ensures row { OnOk result (Took V.contents rest.old made.now.text.items rest.new) }
    ensures err { IfErr result (λ why. IsPieceCut W.contents V.contents blobs.old rest.old made.now.text.items
        (bytes_of made.now.blob) why blobs.new rest.new) }
{
    put(made.text.as_slice(), rest)?;
    put(made.blob.as_slice(), blobs)
}
