//! The records of a CSV, read one after another.
ghost use Rattle.std.specs.Prelude.{◌≡◌, [], IfOk, IfErr};
ghost use Rattle.csv.specs.Records.{fields_of};
ghost use Rattle.twkb_io.specs.Taps.{device_of};
ghost use Rattle.twkb_hex.specs.Records.{HasGiven, ReadsNext};
ghost use Rattle.twkb_hex.specs.declared.report.HexCause.TheVariants.{ReadDevice};

use crate::report::HexCause;
use csv::{ByteRecord, Reader, ReaderBuilder};
use std::alloc::Global;
use std::io::Read;
use twkb_io::Tap;

// Makes a reader of `csv` over a tap, which has read nothing. It gives all records, the first one
// too, with any number of fields, and the fields as they are. Takes no memory.
pub(crate) fn new_reader<'a, R: Read>(
    alloc: Global,
    tap: &'a mut Tap<R>,
    delimiter: u8,
) -> Reader<&'a mut Tap<R>>
    ensures { HasGiven delimiter R.remaining (R.remaining (device_of tap.old)) [] result }
{
    ReaderBuilder::new()
        .has_headers(false)
        .flexible(true)
        .delimiter(delimiter)
        .from_reader(alloc, tap)
}

// Reads the next record into `last`, and returns whether there was one. Takes memory. The `Err` is
// `ReadDevice`: the device failed, or memory was refused; nothing is then known of `last`.
pub(crate) fn read_next<R: Read>(
    reader: &mut Reader<&mut Tap<R>>,
    last: &mut ByteRecord,
) -> Result<bool, HexCause>
    ensures ok { IfOk result (λ found. ReadsNext R.remaining reader.old found (fields_of last.new) reader.new) }
    ensures err { IfErr result (λ why. why ≡ ReadDevice) }
{
    let Ok(found) = reader.read_byte_record(last) else {
        return Err(HexCause::ReadDevice);
    };
    Ok(found)
}
