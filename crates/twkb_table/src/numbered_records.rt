//! Records with their numbers.
ghost use Rattle.std.specs.Prelude.{◌≡◌, ◌+◌, []};
ghost use Rattle.csv.specs.Records.{fields_of};
ghost use Rattle.twkb_io.specs.Taps.{device_of};
ghost use Rattle.twkb_table.specs.CsvRecords.{HasGiven, ReadsNext, ReadsRecord, fault_of};

use crate::reason::RowReason;
use crate::table_fault::TableFault;
use csv::{ByteRecord, Reader, ReaderBuilder};
use std::alloc::Global;
use std::io::Read;
use twkb_flat::Stop;
use twkb_io::Tap;

/// Each record of a table has a number below this (profile).
pub const RECORD_CAP: u64 = 1 << 32;

// Makes a reader of `csv` over a tap, which has read nothing. It gives all records, the first one
// too, with any number of fields, and the fields as they are. Takes no memory.
pub(crate) fn new_reader<'a, R: Read>(alloc: Global, tap: &'a mut Tap<R>) -> Reader<&'a mut Tap<R>>
    ensures { HasGiven R.remaining (R.remaining (device_of tap.old)) [] result }
{
    ReaderBuilder::new()
        .has_headers(false)
        .flexible(true)
        .from_reader(alloc, tap)
}

// Reads the next record into `last`, and returns whether there was one. Takes memory. The `Err` is
// `Source`: the device failed, or memory was refused; nothing is then known of `last`.
#[inline(always)]
pub(crate) fn read_next<R: Read>(
    reader: &mut Reader<&mut Tap<R>>,
    last: &mut ByteRecord,
) -> Result<bool, TableFault>
    ensures { ReadsNext R.remaining reader.old result (fields_of last.new) reader.new }
{
    let Ok(found) = reader.read_byte_record(last) else {
        return Err(TableFault::Source);
    };
    Ok(found)
}

// Reads the next record after the header into `last`, and returns whether there was one; if so,
// adds 1 to `number`, which counts the records after the header. Takes memory. An `Err` is
// `Source`, as with `read_next`, or `TooManyRecords` if the record's number in the table would be
// 2^32 or more.
#[inline(always)]
pub(crate) fn next_record<R: Read>(
    reader: &mut Reader<&mut Tap<R>>,
    last: &mut ByteRecord,
    number: &mut u32,
) -> Result<bool, TableFault>
    ensures { ReadsRecord R.remaining reader.old (number.old + 1) result (fields_of last.new)
        reader.new (number.new + 1) }
{
    if !read_next(reader, last)? {
        return Ok(false);
    }
    if u64::from(*number) + 2 >= RECORD_CAP {
        return Err(TableFault::TooManyRecords);
    }
    *number += 1;
    Ok(true)
}

// The fault to return if the last record read, the one with this number after the header, which has
// number 0, was refused: `Memory` if memory was refused, else `At` with the reason and the record's
// number in the table, which is one more.
pub(crate) fn fault_at(number: u32, stop: Stop<RowReason>) -> TableFault
    ensures value { result ≡ fault_of (number + 1) stop }
{
    match stop {
        Stop::Memory => TableFault::Memory,
        Stop::Refused(reason) => TableFault::At {
            number: u64::from(number) + 1,
            reason,
        },
    }
}
