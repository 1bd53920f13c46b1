//! The causes that faults of parts are for a caller.
ghost use Rattle.std.specs.Prelude.{◌≡◌};
ghost use Rattle.twkb_hex.specs.Causes.{after_reads, cause_at};

use crate::report::{HexCause, HexReason};
use std::alloc::AllocError;
use twkb_flat::Stop;
use twkb_io::OutFault;

// The cause to report for a fault of an output. `Spent` does not occur, since no put follows a
// refused one.
impl From<OutFault> for HexCause {
    ghost use Rattle.twkb_hex.specs.Causes.{cause_of_output};

    ghost from_gives = { λ fault why. why ≡ cause_of_output fault };

    fn from(fault: OutFault) -> HexCause {
        match fault {
            OutFault::Write | OutFault::Stuck => HexCause::WriteDevice,
            OutFault::TooLong | OutFault::Spent => HexCause::TooLong,
        }
    }
}

// The cause to report for a growth that was refused.
impl From<AllocError> for HexCause {
    ghost use Rattle.twkb_hex.specs.declared.report.HexCause.TheVariants.{Memory};

    ghost from_gives = { λ _ why. why ≡ Memory };

    fn from(_: AllocError) -> HexCause {
        HexCause::Memory
    }
}

// The cause to report if the record with this number was not converted.
pub(crate) fn cause_at(number: u64, stop: Stop<HexReason>) -> HexCause
    ensures { result ≡ cause_at number stop }
{
    match stop {
        Stop::Memory => HexCause::Memory,
        Stop::Refused(reason) => HexCause::Record { number, reason },
    }
}

// The answer to report in place of `answer`, given whether a read failed. If a read failed, that is
// `ReadDevice`, unless `answer` is `WriteDevice`, which stays. If none failed, `ReadDevice` becomes
// `Memory`, and any other answer stays.
pub(crate) fn after_reads(
    answer: Result<(), HexCause>,
    has_read_failed: bool,
) -> Result<(), HexCause>
    ensures { result ≡ after_reads has_read_failed answer }
{
    match answer {
        Err(HexCause::WriteDevice) => answer,
        _ if has_read_failed => Err(HexCause::ReadDevice),
        Err(HexCause::ReadDevice) => Err(HexCause::Memory),
        _ => answer,
    }
}
