//! The five fields of a record.
ghost use Rattle.std.specs.Prelude.{◌≡◌, ◌<◌, length, Some};
ghost use Rattle.csv.specs.Records.{fields_of, field_at};
ghost use Rattle.twkb_table.specs.Record.{record_seen};

use csv::ByteRecord;

// The number of fields in the record of a row.
pub(crate) const FIELD_COUNT: usize = 5;

// The five fields of a record, read or to be written.
#[derive(Clone, Copy)]
pub(crate) struct Fields<'a> {
    pub(crate) depth: &'a [u8],
    pub(crate) kind: &'a [u8],
    pub(crate) id: &'a [u8],
    pub(crate) precision: &'a [u8],
    pub(crate) polyline: &'a [u8],
}

// The field at this place of a record, counted from 0; the record must have it.
#[inline(always)]
fn field(row: &ByteRecord, place: usize) -> &[u8]
    requires { place < length (fields_of row.now) }
    ensures value { field_at (fields_of row.now) place ≡ Some result.now }
{
    row.get(place).unwrap()
}

// The fields of a record, which must have exactly five.
#[inline(always)]
pub(crate) fn five_fields(row: &ByteRecord) -> Fields<'_>
    requires { length (fields_of row.now) ≡ 5 }
    ensures value { record_seen result ≡ fields_of row.now }
{
    Fields {
        depth: field(row, 0),
        kind: field(row, 1),
        id: field(row, 2),
        precision: field(row, 3),
        polyline: field(row, 4),
    }
}
