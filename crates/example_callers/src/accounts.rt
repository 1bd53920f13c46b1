//! Packing a table, with an account of what was done.
ghost use Rattle.twkb_tree.specs.Limits.{standard_limits};
ghost use Rattle.example_callers.specs.Accounts.{IsAccount};

use std::alloc::Global;
use std::io::{Read, Write};
use twkb_convert::{Cause, Limits, Tap, pack};

/// The account of a packed table.
#[derive(Clone, Copy, Debug, PartialEq, Eq)]
pub struct Account {
    /// The number of geometries whose blobs were sent whole.
    pub done: u64,
    /// The number of bytes sent.
    pub sent: u64,
    /// Why packing stopped before the table's end, if it did.
    pub stopped: Option<Cause>,
}

/// Packs a table, and returns an account of what was done and sent, and of why it stopped, in place
/// of a report or a fault. Takes memory as `pack` does: for one record, one geometry, and the
/// points of the record after it: up to 8 MiB, or all if that geometry is a single point.
pub fn pack_table<R: Read, W: Write>(
    alloc: Global,
    table: &mut Tap<R>,
    blobs: &mut Tap<W>,
) -> Account
    ensures { IsAccount standard_limits R.remaining W.contents table.old blobs.old blobs.new result }
{
    match pack(alloc, table, blobs, Limits::standard()) {
        Ok(report) => Account {
            done: report.geometries,
            sent: report.bytes,
            stopped: None,
        },
        Err(fault) => Account {
            done: fault.done,
            sent: fault.sent,
            stopped: Some(fault.cause),
        },
    }
}
