//! The records of a CSV, read one after another.
ghost use Rattle.std.specs.Prelude.{[], IfOk};
ghost use Rattle.csv.specs.Records.{fields_of};
ghost use Rattle.twkb_io.specs.Taps.{device_of};
ghost use Rattle.twkb_records.specs.Records.{HasGiven, ReadsNext};

use csv::{ByteRecord, Reader, ReaderBuilder};
use std::alloc::Global;
use std::io::Read;
use twkb_io::Tap;

/// No record was read: the device failed, or memory was refused.
#[derive(Clone, Copy, Debug, PartialEq, Eq)]
pub struct NotRead;

/// Makes a reader of `csv` over a tap, which has read nothing. It gives all records, the first one
/// too, with any number of fields, and the fields as they are (RFC 4180, with this byte between
/// fields). A byte order mark before them is passed over. Takes no memory.
pub fn new_reader<'a, R: Read>(
    alloc: Global,
    tap: &'a mut Tap<R>,
    delimiter: u8,
) -> Reader<&'a mut Tap<R>>
    ensures { HasGiven delimiter R.remaining (R.remaining (device_of tap.old)) [] result }
{
    ReaderBuilder::new()
        .has_headers(false)
        .flexible(true)
        .delimiter(delimiter)
        .from_reader(alloc, tap)
}

/// Reads the next record into `last`, and returns whether there was one. Takes memory. After an
/// `Err` nothing is known of `last`.
pub fn read_next<R: Read>(
    reader: &mut Reader<&mut Tap<R>>,
    last: &mut ByteRecord,
) -> Result<bool, NotRead>
    ensures { IfOk result (λ found. ReadsNext R.remaining reader.old found (fields_of last.new) reader.new) }
{
    let Ok(found) = reader.read_byte_record(last) else {
        return Err(NotRead);
    };
    Ok(found)
}
