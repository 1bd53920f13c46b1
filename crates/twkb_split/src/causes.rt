//! The causes that faults of parts are for a caller.
ghost use Rattle.std.specs.Prelude.{◌≡◌};
ghost use Rattle.twkb_split.specs.Causes.{after_flush, after_reads, cause_at, cause_of_output, refused_at};

use twkb_column::{Cause, ColumnCause, ColumnReason};
use twkb_flat::Stop;
use twkb_io::OutFault;
use twkb_records::LineFault;
use twkb_table::RowReason;

// Why a record is refused.
#[derive(Clone, Copy)]
pub(crate) enum RecordReason {
    // By the rules of the CSV itself.
    Csv(ColumnReason),
    // By those of the polyline of its field.
    Line(LineFault),
}

// The cause to report for a fault of an output. `Spent` does not occur, since no put follows a
// refused one.
pub(crate) fn cause_of_output(fault: OutFault) -> ColumnCause
    ensures { result ≡ cause_of_output fault }
{
    match fault {
        OutFault::Write | OutFault::Stuck => ColumnCause::Pack(Cause::WriteDevice),
        OutFault::TooLong | OutFault::Spent => ColumnCause::Pack(Cause::TooLong),
    }
}

// The cause to report if the record with this number is refused.
fn refused_at(number: u64, reason: RecordReason) -> ColumnCause
    ensures { result ≡ refused_at number reason }
{
    let reason = match reason {
        RecordReason::Csv(reason) => return ColumnCause::Csv { number, reason },
        RecordReason::Line(LineFault::BadPrecision) => RowReason::BadPrecision,
        RecordReason::Line(LineFault::Polyline(offset, why)) => RowReason::Polyline(offset, why),
    };
    ColumnCause::Pack(Cause::Row { number, reason })
}

// The cause to report if the record with this number was not taken.
pub(crate) fn cause_at(number: u64, stop: Stop<RecordReason>) -> ColumnCause
    ensures { result ≡ cause_at number stop }
{
    match stop {
        Stop::Memory => ColumnCause::Pack(Cause::Memory),
        Stop::Refused(reason) => refused_at(number, reason),
    }
}

// The answer to report in place of `answer`, given whether a flush failed.
pub(crate) fn after_flush(
    answer: Result<(), ColumnCause>,
    has_failed: bool,
) -> Result<(), ColumnCause>
    ensures { result ≡ after_flush has_failed answer }
{
    if has_failed {
        return Err(ColumnCause::Pack(Cause::WriteDevice));
    }
    answer
}

// The answer to report in place of `answer`, given whether a read failed. If a read failed, that is
// `ReadDevice`, unless `answer` is `WriteDevice`, which stays. If none failed, `ReadDevice` becomes
// `Memory`, and any other answer stays.
pub(crate) fn after_reads(
    answer: Result<(), ColumnCause>,
    has_read_failed: bool,
) -> Result<(), ColumnCause>
    ensures { result ≡ after_reads has_read_failed answer }
{
    match answer {
        Err(ColumnCause::Pack(Cause::WriteDevice)) => answer,
        _ if has_read_failed => Err(ColumnCause::Pack(Cause::ReadDevice)),
        Err(ColumnCause::Pack(Cause::ReadDevice)) => Err(ColumnCause::Pack(Cause::Memory)),
        _ => answer,
    }
}
