//! Limits and styles, as C passes them.
ghost use Rattle.std.specs.Prelude.{◌≡◌, ◌≢◌, ◌↔◌, IsSome, IfSome, IsNone};
ghost use Rattle.twkb_tree.specs.Limits.{IsAllowance};
ghost use Rattle.twkb_buffer.specs.Polylines.{nothing_report};
ghost use Rattle.twkb_c.specs.Arguments.{IsStopFlag, IsStyleNumber, allowance_of};
ghost use Rattle.twkb_c.specs.Arguments.{arguments_counts, arguments_report};

use twkb_arrays::BufferCounts;
use twkb_buffer::BufferReport;
use twkb_convert::{Limits, Style};

/// Limits on one geometry.
#[repr(C)]
#[derive(Clone, Copy, Debug, PartialEq, Eq)]
pub struct BufferLimits {
    /// The most collections that a geometry may be in, 0 to 32.
    pub nest: u32,
    /// The most rows, 1 to 2^20.
    pub nodes: u32,
    /// The most points, 0 to 2^24.
    pub points: u32,
}

impl BufferLimits {
    // The limits with these numbers; `None` if one is out of its range.
    pub(crate) fn limits(self) -> Option<Limits>
        ensures accepted { IsSome result ↔ IsAllowance (allowance_of self) }
        ensures value { IfSome result (λ limits. limits ≡ allowance_of self) }
    {
        Limits::try_new(self.nest, self.nodes, self.points)
    }
}

// The style with a number: 0 is full, 1 is plain; `None` for any other.
pub(crate) fn style_of(number: u32) -> Option<Style>
    ensures style { IfSome result (λ style. IsStyleNumber style number) }
    ensures other { IsNone result → (number ≢ 0) × (number ≢ 1) }
{
    match number {
        0 => Some(Style::Full),
        1 => Some(Style::Plain),
        _ => None,
    }
}

// Whether flags ask for a stop at the first geometry without room: 1 does, 0 does not; `None` for
// any other number.
pub(crate) fn stops_of(flags: u32) -> Option<bool>
    ensures stops { IfSome result (λ stops. IsStopFlag stops flags) }
    ensures other { IsNone result → (flags ≢ 0) × (flags ≢ 1) }
{
    match flags {
        0 => Some(false),
        1 => Some(true),
        _ => None,
    }
}

// The status if an argument is out of range.
const ARGUMENTS: u32 = 2;

// The status if memory is refused.
pub(crate) const MEMORY: u32 = 4;

// The report if an argument is out of range: status 2, and 0 for all else.
pub(crate) fn refused_arguments() -> BufferReport
    ensures { result ≡ arguments_report }
{
    nothing_done(ARGUMENTS)
}

// The report of a call that did nothing: this status, and 0 for all else.
pub(crate) fn nothing_done(status: u32) -> BufferReport
    ensures { result ≡ nothing_report status 0 }
{
    BufferReport {
        status,
        reason: 0,
        place: 0,
        text_offset: 0,
        done: 0,
        sent: 0,
        needed: 0,
        taken: 0,
        taken_points: 0,
        reserved_1: 0,
        reserved_2: 0,
    }
}

// The counts if the limits are out of range: status 2, and 0 for all else.
pub(crate) fn refused_counts() -> BufferCounts
    ensures { result ≡ arguments_counts }
{
    BufferCounts {
        status: ARGUMENTS,
        reason: 0,
        place: 0,
        done: 0,
        rows: 0,
        points: 0,
        needed_rows: 0,
        needed_points: 0,
        taken: 0,
        reserved_1: 0,
        reserved_2: 0,
    }
}
