//! The numbers of statuses and reasons for C.
ghost use Rattle.std.specs.Prelude.{◌≡◌};
ghost use Rattle.twkb_buffer.specs.Numbers.{blob_number_of, place_of, point_text_number_of, reason_number_of};
ghost use Rattle.twkb_buffer.specs.Numbers.{row_number_of, status_of, text_offset_of};

use twkb_convert::{BlobReason, Cause, PolyReason, RowReason};

// Everything was converted.
pub(crate) const DONE: u32 = 0;

// The input is refused, or it has too many records, or input or output is too long.
pub(crate) const REFUSED: u32 = 1;

// An argument is out of range.
pub(crate) const ARGUMENTS: u32 = 2;

// The input could not be read.
const DEVICE: u32 = 3;

// Memory was refused.
pub(crate) const MEMORY: u32 = 4;

// The output is too small.
pub(crate) const TOO_SMALL: u32 = 5;

// The number of the reason for which a polyline is refused, 21 to 27.
pub(crate) fn point_text_number(reason: PolyReason) -> u32
    ensures { result ≡ point_text_number_of reason }
{
    match reason {
        PolyReason::BadChar => 21,
        PolyReason::Cut => 22,
        PolyReason::TooLong => 23,
        PolyReason::Padded => 24,
        PolyReason::Half => 25,
        PolyReason::Range => 26,
        PolyReason::TooMany => 27,
    }
}

/// The number of the reason for which a record is refused, 1 to 14 or 16; if its polyline is
/// refused, the number of the reason for that, 21 to 27. Takes no memory.
pub fn row_number(reason: RowReason) -> u32
    ensures { result ≡ row_number_of reason }
{
    match reason {
        RowReason::BadHeader => 1,
        RowReason::FieldCount => 2,
        RowReason::BadDepth => 3,
        RowReason::BadKind => 4,
        RowReason::BadPlace => 5,
        RowReason::TooDeep => 6,
        RowReason::TooManyNodes => 7,
        RowReason::BadId => 8,
        RowReason::IdNotAllowed => 9,
        RowReason::MixedIds => 10,
        RowReason::BadPrecision => 11,
        RowReason::PrecisionMissing => 12,
        RowReason::PrecisionNotAllowed => 13,
        RowReason::PolylineNotAllowed => 14,
        RowReason::Polyline(_, why) => point_text_number(why),
        RowReason::PointCount => 16,
    }
}

/// The number of the reason for which a blob is refused, 41 to 49. Takes no memory.
pub fn blob_number(reason: BlobReason) -> u32
    ensures { result ≡ blob_number_of reason }
{
    match reason {
        BlobReason::Truncated => 41,
        BlobReason::BadType => 42,
        BlobReason::ExtraDimensions => 43,
        BlobReason::BadVarint => 44,
        BlobReason::TooDeep => 45,
        BlobReason::TooManyNodes => 46,
        BlobReason::TooManyPoints => 47,
        BlobReason::CoordinateRange => 48,
        BlobReason::SizeMismatch => 49,
    }
}

// The number of the reason for which a record or a blob is refused; 61 if the input or the output
// is too long, 62 if there are too many records, and 0 for any other cause.
pub(crate) fn reason_number(cause: Cause) -> u32
    ensures { result ≡ reason_number_of cause }
{
    match cause {
        Cause::Row { reason, .. } => row_number(reason),
        Cause::Blob { reason, .. } => blob_number(reason),
        Cause::TooLong => 61,
        Cause::TooManyRecords => 62,
        Cause::ReadDevice | Cause::WriteDevice | Cause::Memory => 0,
    }
}

// The status of a conversion into a slice that stopped for this cause: 1 if the input is refused or
// has too many records, or input or output is too long, 3 if a read failed, 4 if memory was
// refused, and 5 if a write failed, since the slice is then full.
pub(crate) fn status(cause: Cause) -> u32
    ensures { result ≡ status_of cause }
{
    match cause {
        Cause::Row { .. } | Cause::Blob { .. } | Cause::TooLong | Cause::TooManyRecords => REFUSED,
        Cause::ReadDevice => DEVICE,
        Cause::Memory => MEMORY,
        Cause::WriteDevice => TOO_SMALL,
    }
}

// The number of the refused record, from 1, or the offset of the refused item, in bytes from the
// stream's start; 0 for any other cause.
pub(crate) fn place(cause: Cause) -> u64
    ensures { result ≡ place_of cause }
{
    match cause {
        Cause::Row { number, .. } => number,
        Cause::Blob { offset, .. } => offset,
        _ => 0,
    }
}

// The offset at which a refused record's polyline is refused, in bytes from the polyline's start; 0
// for any other cause.
pub(crate) fn text_offset(cause: Cause) -> u64
    ensures { result ≡ text_offset_of cause }
{
    match cause {
        Cause::Row {
            reason: RowReason::Polyline(offset, _),
            ..
        } => offset as u64,
        _ => 0,
    }
}
