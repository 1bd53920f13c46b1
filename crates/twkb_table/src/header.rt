//! The first line of every table.
ghost use Rattle.std.specs.Prelude.{◌≡◌, ◌↔◌, [], ◌∷◌, IsTrue};
ghost use Rattle.csv.specs.Records.{fields_of};
ghost use Rattle.twkb_table.specs.Record.{header};
ghost use Rattle.twkb_table.specs.Text.{csvtext};

use crate::fields::{FIELD_COUNT, five_fields};
use csv::ByteRecord;

/// The header's line with its LF: `depth,kind,id,precision,polyline` (profile). Takes no memory.
pub fn header_text() -> &'static [u8]
    ensures text { result.now ≡ csvtext (header ∷ []) }
{
    b"depth,kind,id,precision,polyline\n"
}

// The fields of the header.
const HEADER: [&[u8]; FIELD_COUNT] = [b"depth", b"kind", b"id", b"precision", b"polyline"];

// Whether a record is the header: exactly the five names of the columns, in order.
pub(crate) fn is_header(csv_record: &ByteRecord) -> bool
    ensures { IsTrue result ↔ (fields_of csv_record.now ≡ header) }
{
    if csv_record.len() != FIELD_COUNT {
        return false;
    }
    let fields = five_fields(csv_record);
    [
        fields.depth,
        fields.kind,
        fields.id,
        fields.precision,
        fields.polyline,
    ] == HEADER
}
