//! The report of a call.
ghost use Rattle.std.specs.Prelude.{◌≡◌};
ghost use Rattle.twkb_buffer.specs.Calls.{HasNoMore, Tells};
ghost use Rattle.twkb_buffer.specs.Polylines.{nothing_report};

use crate::reason_numbers::{DONE, place, reason_number, status, text_offset};
use twkb_convert::{ConvertFault, Report};

/// The result of a call that converts, measures or rounds.
#[repr(C)]
#[derive(Clone, Copy, Debug, PartialEq, Eq)]
pub struct BufferReport {
    /// 0: everything was converted. 1: the input is refused. 2: limits, style, conversion or
    /// precision are refused. 3: the input could not be read. 4: no memory. 5: the output is too
    /// small.
    pub status: u32,
    /// The number of the reason for which the input is refused; 0 if it is not.
    pub reason: u32,
    /// The number of the refused record, from 1; or the offset of the refused item, or the index of
    /// the refused row, point or number, from 0; otherwise 0.
    pub place: u64,
    /// The offset at which a text of points is refused, in bytes from its start; or the index in a
    /// refused row of its point that is out of range; otherwise 0.
    pub text_offset: u64,
    /// The number of geometries whose output was written, or by `measure` counted, whole; for a
    /// polyline or for rounding 1 if all was done, else 0.
    pub done: u64,
    /// The number of bytes, points or coordinates written.
    pub sent: u64,
    /// From `measure`, the length of the whole output in bytes, or 0 if it is not known. From
    /// `fill`, and for a polyline or for rounding, as many as `sent`; but if the output is too
    /// small, as many as are needed, or 0 if that is not known.
    pub needed: u64,
    /// How much of the input the geometries in `done` are: of a stream bytes, of a table records
    /// with that of the header, of arrays rows; 0 if `done` is 0, and for a polyline and for
    /// rounding.
    pub taken: u64,
    /// The number of points of the rows in `taken`; of any other input 0.
    pub taken_points: u64,
    /// 0: room for what later versions report.
    pub reserved_1: u64,
    /// 0: room for what later versions report.
    pub reserved_2: u64,
}

// The report of a call that wrote nothing, with this status and this size needed, and 0 for all
// else.
pub(crate) fn nothing_put(status: u32, needed: u64) -> BufferReport
    ensures { result ≡ nothing_report status needed }
{
    BufferReport {
        status,
        reason: 0,
        place: 0,
        text_offset: 0,
        done: 0,
        sent: 0,
        needed,
        taken: 0,
        taken_points: 0,
        reserved_1: 0,
        reserved_2: 0,
    }
}

// The report of a call that did all: status 0, these numbers of geometries and of what was written,
// `needed` equal to `sent`, and 0 for all else.
pub(crate) fn finished(done: u64, sent: u64) -> BufferReport
    ensures { result ≡ record (nothing_report 0 sent) { done = done; sent = sent } }
{
    BufferReport {
        done,
        sent,
        ..nothing_put(DONE, sent)
    }
}

// The report of a conversion that reached its end.
pub(crate) fn converted(report: Report) -> BufferReport
    ensures { result ≡ record (nothing_report 0 report.bytes) {
      done = report.geometries;
      sent = report.bytes;
      taken = report.taken;
    } }
{
    BufferReport {
        taken: report.taken,
        ..finished(report.geometries, report.bytes)
    }
}

// The report of a conversion that stopped: the status, the reason and the places of its cause, and
// its numbers of geometries and bytes, and what it took; `needed` is the number of bytes too.
pub(crate) fn stopped(fault: ConvertFault) -> BufferReport
    ensures told { Tells result fault.cause }
    ensures done { result.done ≡ fault.done }
    ensures sent { result.sent ≡ fault.sent }
    ensures needed { result.needed ≡ fault.sent }
    ensures taken { result.taken ≡ fault.taken }
    ensures no_more { HasNoMore result }
{
    BufferReport {
        reason: reason_number(fault.cause),
        place: place(fault.cause),
        text_offset: text_offset(fault.cause),
        done: fault.done,
        sent: fault.sent,
        taken: fault.taken,
        ..nothing_put(status(fault.cause), fault.sent)
    }
}
