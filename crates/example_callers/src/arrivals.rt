//! Counting blobs that arrive in pieces.
ghost use Rattle.std.specs.Prelude.{◌≡◌, ◌≤◌, List, [], ℕ, length, IfOk};
ghost use Rattle.twkb_tree.specs.Tree.{Tree};
ghost use Rattle.twkb_tree.specs.Limits.{standard_limits};
ghost use Rattle.twkb_blob.specs.Sessions.{Stands, session_limits};
ghost use Rattle.example_callers.specs.Counting.{HasGeometries, TookPiece};

use std::alloc::Global;
use std::io::Read;
use twkb_blob::{BlobFault, Session};
use twkb_geom::Limits;
use twkb_io::InFault;

/// The numbers of what arrived.
#[derive(Clone, Copy, Debug, PartialEq, Eq)]
pub struct Arrived {
    pub geometries: u64,
    pub bytes: u64,
}

/// Reads a socket to its end, and counts the geometries of its stream as they become complete.
/// Between two reads it keeps the rows of the open geometry, and no bytes but those of an open
/// number. Takes memory for these rows.
pub fn count_arrivals<R: Read>(alloc: Global, socket: &mut R) -> Result<Arrived, BlobFault>
    ensures { IfOk result (λ arrived. HasGeometries standard_limits (R.remaining socket.old)
        arrived.geometries arrived.bytes) }
{
    let mut session = Session::new(alloc, Limits::standard());
    count_by(&mut session, socket)
}

// Reads a socket to its end through a session at the start of a stream, and returns the numbers of
// its stream's geometries and bytes. An `Err` is the fault of a read or of the stream. Takes memory
// for the rows of the open geometry.
fn count_by<R: Read>(session: &mut Session, socket: &mut R) -> Result<Arrived, BlobFault>
    requires stands { Stands [] [] session.old }
    requires limits { session_limits session.old ≡ standard_limits }
    ensures { IfOk result (λ arrived. HasGeometries standard_limits (R.remaining socket.old)
        arrived.geometries arrived.bytes) }
{
    let mut piece = [0; 512];
    let mut arrived = Arrived {
        geometries: 0,
        bytes: 0,
    };
    loop {
        let Ok(count) = socket.read(&mut piece) else {
            return Err(BlobFault::Device(InFault::Read));
        };
        if count == 0 {
            session.finish()?;
            return Ok(arrived);
        }
        arrived.geometries += take_piece(session, &piece[..count])?;
        arrived.bytes += count as u64;
    }
}

// Feeds a piece to its end, and counts the geometries that end in it. After each geometry the
// rest of the piece is fed again.
fn take_piece(session: &mut Session, piece: &[u8]) -> Result<u64, BlobFault>
    requires stands { (bytes : List ℕ) × (gs : List Tree) × Stands bytes gs session.old }
    ensures took { (bytes : List ℕ) (gs : List Tree) → Stands bytes gs session.old
        → IfOk result (λ count. TookPiece bytes gs piece.now count session.new) }
    ensures few { IfOk result (λ count. count ≤ length piece.now) }
    ensures limits { session_limits session.new ≡ session_limits session.old }
{
    let mut at = 0;
    let mut count = 0;
    loop {
        let (used, is_whole) = session.feed_flat(&piece[at..])?;
        if !is_whole {
            return Ok(count);
        }
        count += 1;
        at += used;
    }
}
