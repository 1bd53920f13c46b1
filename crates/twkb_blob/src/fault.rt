//! Why a reader of blobs gave no geometry.
ghost use Rattle.std.specs.Prelude.{◌≡◌, ℕ, List, Err, false};
ghost use Rattle.twkb_tree.specs.Rows.{Row};
ghost use Rattle.twkb_engine.specs.State.{allowance_of};
ghost use Rattle.twkb_engine.specs.Standing.{StandsAt};
ghost use Rattle.twkb_blob.specs.Readers.{failed_by_read};
ghost use Rattle.twkb_blob.specs.Faults.{EndsAt, fault_of};

use thiserror::Error;
use twkb_engine::{BlobReason, Engine, Stop};
use twkb_io::InFault;

/// Why a reader of blobs gave no geometry.
#[derive(Clone, Copy, Debug, PartialEq, Eq, Error)]
pub enum BlobFault {
    /// Memory was refused.
    #[error("out of memory")]
    Memory,
    /// A read failed, or the stream has more than 2^62 bytes.
    #[error("{0}")]
    Device(InFault),
    /// An earlier call returned an error, or the session was finished.
    #[error("reader was refused before")]
    Spent,
    /// The item at this offset, in bytes from the stream's start, is refused.
    #[error("byte {offset}: {reason}")]
    At {
        /// Where the item begins.
        offset: u64,
        /// Why it is refused.
        reason: BlobReason,
    },
}

// The fault to report if an engine stops: `Memory` if memory was refused, else `At` with the reason
// and this offset, in bytes from the stream's start.
pub(crate) fn fault_at(offset: u64, stop: Stop) -> BlobFault
    ensures { result ≡ fault_of offset stop }
{
    match stop {
        Stop::Memory => BlobFault::Memory,
        Stop::Refused(reason) => BlobFault::At { offset, reason },
    }
}

// Whether a stream may end after the bytes that an engine was fed: `Ok` if no blob is begun there,
// else `Truncated` at the offset of the item that is cut or missing.
pub(crate) fn judge_end(engine: &Engine) -> Result<(), BlobFault>
    ensures end { (bs : List ℕ) (rs : List Row) → StandsAt bs rs engine.now
        → EndsAt (allowance_of engine.now) engine.now.start bs result }
    ensures unread { failed_by_read result ≡ false }
    ensures unspent { result ≡ Err BlobFault.Spent → ⊥ }
{
    if engine.is_between() {
        return Ok(());
    }
    Err(fault_at(engine.offset(), Stop::Refused(BlobReason::Truncated)))
}
