//! The numbers of reasons for which a column of a CSV is refused, and the report of such a call.
ghost use Rattle.std.specs.Prelude.{◌≡◌};
ghost use Rattle.twkb_buffer.specs.Calls.{HasNoMore};
ghost use Rattle.twkb_buffer.specs.ColumnCalls.{TellsJob};
ghost use Rattle.twkb_buffer.specs.ColumnNumbers.{column_number_of, job_cause_of, line_number_of, own_number_of};
ghost use Rattle.twkb_buffer.specs.ColumnNumbers.{own_place_of};

use crate::column_job::{JobCause, JobFault};
use crate::reason_numbers::{REFUSED, place, reason_number, status, text_offset};
use crate::report::{BufferReport, nothing_put};
use twkb_column::{ColumnCause, ColumnReason};
use twkb_convert::Cause;
use twkb_rest::{LineReason, UnpackCause};

/// The number of the reason for which a record of a CSV is refused, 81 to 84. Takes no memory.
pub fn column_number(reason: ColumnReason) -> u32
    ensures { result ≡ column_number_of reason }
{
    match reason {
        ColumnReason::NoSuchColumn => 81,
        ColumnReason::ColumnTwice => 82,
        ColumnReason::FieldCount => 83,
        ColumnReason::MissingValue => 84,
    }
}

/// The number of the reason for which a blob can't be a field of a column, 91 or 92. Takes no
/// memory.
pub fn line_number(reason: LineReason) -> u32
    ensures { result ≡ line_number_of reason }
{
    match reason {
        LineReason::NoLinestring => 91,
        LineReason::AnotherPrecision => 92,
    }
}

// The cause that conversions of tables and streams have too; `None` if it is one of columns alone.
fn common_cause(cause: JobCause) -> Option<Cause>
    ensures { result ≡ job_cause_of cause }
{
    match cause {
        JobCause::Pack(ColumnCause::Pack(why)) => Some(why),
        JobCause::Unpack(UnpackCause::Stream(why)) => Some(why),
        JobCause::Pack(ColumnCause::Csv { .. }) => None,
        JobCause::Unpack(UnpackCause::Line { .. }) => None,
    }
}

// The number of the reason of a cause that only columns have; 0 for any other.
fn own_number(cause: JobCause) -> u32
    ensures { result ≡ own_number_of cause }
{
    match cause {
        JobCause::Pack(ColumnCause::Csv { reason, .. }) => column_number(reason),
        JobCause::Unpack(UnpackCause::Line { reason, .. }) => line_number(reason),
        _ => 0,
    }
}

// The place of a cause that only columns have: the number of the record, from 1, or the offset of
// the blob; 0 for any other.
fn own_place(cause: JobCause) -> u64
    ensures { result ≡ own_place_of cause }
{
    match cause {
        JobCause::Pack(ColumnCause::Csv { number, .. }) => number,
        JobCause::Unpack(UnpackCause::Line { offset, .. }) => offset,
        _ => 0,
    }
}

// The report of a conversion of a column that stopped: the status, the reason and the places of its
// cause, and its numbers of geometries and bytes, and what it took; `needed` is the number of bytes
// too.
pub(crate) fn stopped_job(fault: JobFault) -> BufferReport
    ensures told { TellsJob result fault.cause }
    ensures done { result.done ≡ fault.done }
    ensures sent { result.sent ≡ fault.sent }
    ensures needed { result.needed ≡ fault.sent }
    ensures taken { result.taken ≡ fault.taken }
    ensures no_more { HasNoMore result }
{
    let report = match common_cause(fault.cause) {
        Some(cause) => BufferReport {
            reason: reason_number(cause),
            place: place(cause),
            text_offset: text_offset(cause),
            ..nothing_put(status(cause), fault.sent)
        },
        None => BufferReport {
            reason: own_number(fault.cause),
            place: own_place(fault.cause),
            ..nothing_put(REFUSED, fault.sent)
        },
    };
    BufferReport {
        done: fault.done,
        sent: fault.sent,
        taken: fault.taken,
        ..report
    }
}
