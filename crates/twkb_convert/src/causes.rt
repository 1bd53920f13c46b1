//! The causes that faults of readers and outputs are for a caller.
ghost use Rattle.std.specs.Prelude.{◌≡◌};
ghost use Rattle.twkb_convert.specs.Causes.{after_reads};

use crate::report::Cause;
use std::alloc::AllocError;
use twkb_blob::BlobFault;
use twkb_io::{InFault, OutFault};
use twkb_table::TableFault;

// The cause to report for a fault of a reader of blobs. `Spent` does not occur, since no call
// follows a refused one.
impl From<BlobFault> for Cause {
    ghost use Rattle.twkb_convert.specs.Causes.{cause_of_blob};

    ghost from_gives = { λ fault why. why ≡ cause_of_blob fault };

    fn from(fault: BlobFault) -> Cause {
        match fault {
            BlobFault::At { offset, reason } => Cause::Blob { offset, reason },
            BlobFault::Device(InFault::Read) => Cause::ReadDevice,
            BlobFault::Memory => Cause::Memory,
            BlobFault::Device(InFault::TooLong | InFault::Spent) | BlobFault::Spent =>
                Cause::TooLong,
        }
    }
}

// The cause to report for a fault of a reader of tables. A fault of `csv` is a failed read or a
// growth that was refused; it counts as a failed read here, and `after_reads` corrects that.
// `Spent` does not occur, since no call follows a refused one.
impl From<TableFault> for Cause {
    ghost use Rattle.twkb_convert.specs.Causes.{cause_of_table};

    ghost from_gives = { λ fault why. why ≡ cause_of_table fault };

    fn from(fault: TableFault) -> Cause {
        match fault {
            TableFault::At { number, reason } => Cause::Row { number, reason },
            TableFault::TooManyRecords => Cause::TooManyRecords,
            TableFault::Source => Cause::ReadDevice,
            TableFault::Memory | TableFault::Spent => Cause::Memory,
        }
    }
}

// The cause to report for a fault of an output. `Spent` does not occur, since no put follows a
// refused one.
impl From<OutFault> for Cause {
    ghost use Rattle.twkb_convert.specs.Causes.{cause_of_output};

    ghost from_gives = { λ fault why. why ≡ cause_of_output fault };

    fn from(fault: OutFault) -> Cause {
        match fault {
            OutFault::Write | OutFault::Stuck => Cause::WriteDevice,
            OutFault::TooLong | OutFault::Spent => Cause::TooLong,
        }
    }
}

// The cause to report for a growth that was refused.
impl From<AllocError> for Cause {
    ghost use Rattle.twkb_convert.specs.declared.report.Cause.TheVariants.{Memory};

    ghost from_gives = { λ _ why. why ≡ Memory };

    fn from(_: AllocError) -> Cause {
        Cause::Memory
    }
}

// The answer to report in place of `answer`, given whether a read failed. If a read failed, that is
// `ReadDevice`, unless `answer` is `WriteDevice`, which stays. If none failed, `ReadDevice` becomes
// `Memory`, and any other answer stays.
pub(crate) fn after_reads(answer: Result<(), Cause>, has_read_failed: bool) -> Result<(), Cause>
    ensures { result ≡ after_reads has_read_failed answer }
{
    match answer {
        Err(Cause::WriteDevice) => answer,
        _ if has_read_failed => Err(Cause::ReadDevice),
        Err(Cause::ReadDevice) => Err(Cause::Memory),
        _ => answer,
    }
}
