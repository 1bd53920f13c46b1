//! Streams of blobs as rows and points in arrays.
ghost use Rattle.std.specs.Prelude.{◌≡◌, ◌≢◌, ◌<◌, ◌≤◌, ◌+◌, ℕ, List, [], length, take, IfOk, IfErr, true, false};
ghost use Rattle.twkb_tree.specs.Tree.{Tree};
ghost use Rattle.twkb_tree.specs.Limits.{Allowance};
ghost use Rattle.twkb_grammar.specs.Items.{Stream};
ghost use Rattle.twkb_buffer.specs.declared.point.BufferPoint.{BufferPoint as InPoint};
ghost use Rattle.twkb_blob.specs.Sessions.{Stands, session_limits};
ghost use Rattle.twkb_arrays.specs.declared.row.BufferRow.{BufferRow as InRow};
ghost use Rattle.twkb_arrays.specs.Ends.{EndAt};
ghost use Rattle.twkb_arrays.specs.FilledArrays.{HasTaken, IsWithin, CountsAs, IsReading, ReadsArrays};
ghost use Rattle.twkb_arrays.specs.FilledArrays.{ReadsTo, ReadsWithinRoom, StopsReading, outcome_of};

use crate::row::BufferRow;
use crate::status::unless_full;
use crate::taken_geometries::{Taken, take_geometry};
use std::alloc::Global;
use twkb_blob::{BlobFault, Session};
use twkb_buffer::{BufferPoint, blob_number};
use twkb_tree::Limits;

/// What a call read, and what it wrote into arrays.
#[repr(C)]
#[derive(Clone, Copy, Debug, PartialEq, Eq)]
pub struct BufferCounts {
    /// 0: everything was read. 1: the bytes are refused. 2: the limits are refused. 4: no memory.
    /// 5: an array has too little room.
    pub status: u32,
    /// The number of the reason for which the bytes are refused; 0 if they are not.
    pub reason: u32,
    /// The offset of the refused item; otherwise 0.
    pub place: u64,
    /// The number of geometries in the arrays.
    pub done: u64,
    /// The number of rows written.
    pub rows: u64,
    /// The number of points written.
    pub points: u64,
    /// The number of rows of all geometries that were read.
    pub needed_rows: u64,
    /// The number of points of all geometries that were read.
    pub needed_points: u64,
    /// The number of bytes of the stream that the geometries in the arrays took.
    pub taken: u64,
    /// 0: room for what later versions report.
    pub reserved_1: u64,
    /// 0: room for what later versions report.
    pub reserved_2: u64,
}

// The status, the reason and the place to report for a reading with this result: status 4 if memory
// was refused or the session was spent, else 5 if an array had too little room (`full`), else 1
// with the refusal, or 0.
fn outcome(full: bool, answer: Result<(), BlobFault>) -> (u32, u32, u64)
    ensures { result ≡ outcome_of full answer }
{
    match answer {
        Ok(()) => unless_full(full, (0, 0, 0)),
        Err(BlobFault::Memory) => (4, 0, 0),
        Err(BlobFault::Spent) => (4, 0, 0),
        Err(BlobFault::Device(_)) => unless_full(full, (1, 61, 0)),
        Err(BlobFault::At { offset, reason }) => {
            unless_full(full, (1, blob_number(reason), offset))
        }
    }
}

// The counts to report for a reading with this result that took the geometries in `taken`.
fn counted(taken: &Taken, answer: Result<(), BlobFault>) -> BufferCounts
    ensures { (l : Allowance) (bytes : List ℕ) (start_rows new_rows : List InRow)
        (start_points new_points : List InPoint) (start_ends new_ends : List ℕ) (given later : List Tree)
        → HasTaken (EndAt l bytes) start_rows start_points start_ends given later new_rows new_points
        new_ends taken.now → CountsAs (EndAt l bytes) given later answer result }
{
    let (status, reason, place) = outcome(taken.passed > 0, answer);
    BufferCounts {
        status,
        reason,
        place,
        done: taken.done as u64,
        rows: taken.rows as u64,
        points: taken.points as u64,
        needed_rows: (taken.rows as u64).saturating_add(taken.passed_rows),
        needed_points: (taken.points as u64).saturating_add(taken.passed_points),
        taken: taken.bytes as u64,
        reserved_1: 0,
        reserved_2: 0,
    }
}

// Reads on from the offset `used`, up to the end of a geometry, which `take_geometry` takes or only
// counts, or to the end of the bytes; returns the offset after what was read. The session must have
// read exactly the bytes before `used`, without an error, at least one byte must be left, and the
// arrays must have what `taken` says. Takes memory. An `Err` is the fault of the bytes, or want of
// memory; then nothing is taken or counted.
#[inline(always)]
fn read_next(
    blobs: &[u8],
    used: usize,
    session: &mut Session,
    row_array: &mut [BufferRow],
    point_array: &mut [BufferPoint],
    ends: &mut [u64],
    taken: &mut Taken,
) -> Result<usize, BlobFault>
    requires left { used < length blobs.now }
    requires within { IsWithin row_array.old point_array.old taken.old }
    requires stands { (gs : List Tree) × Stands (take used blobs.now) gs session.old }
    ensures more { IfOk result (λ next. (used < next) × (next ≤ length blobs.now)) }
    ensures one { taken.new.passed ≤ taken.old.passed + 1 }
    ensures passes { IfOk result (λ next. taken.new.passed ≢ taken.old.passed → (gs : List Tree)
        × Stream (session_limits session.old) (take next blobs.now) gs) }
    ensures kept { IfErr result (λ why. taken.new ≡ taken.old) }
    ensures reads { IfOk result (λ next. (start_rows : List InRow) (start_points : List InPoint)
        (start_ends : List ℕ) → IsReading (session_limits session.old) start_rows start_points start_ends
        (take used blobs.now) row_array.old point_array.old ends.old session.old taken.old
        → IsReading (session_limits session.old) start_rows start_points start_ends (take next blobs.now)
        row_array.new point_array.new ends.new session.new taken.new) }
    ensures stops { IfErr result (λ why. (start_rows : List InRow) (start_points : List InPoint)
        (start_ends : List ℕ) → IsReading (session_limits session.old) start_rows start_points start_ends
        (take used blobs.now) row_array.old point_array.old ends.old session.old taken.old
        → StopsReading (session_limits session.old) start_rows start_points start_ends blobs.now
        row_array.new point_array.new ends.new taken.new why) }
    ensures limits { session_limits session.new ≡ session_limits session.old }
{
    match session.feed_flat(&blobs[used..]) {
        Ok((more, true)) => {
            let next = used + more;
            take_geometry(session.rows(), next, row_array, point_array, ends, taken);
            Ok(next)
        }
        Ok((more, false)) => Ok(used + more),
        Err(fault) => Err(fault),
    }
}

// Reads blobs through a session to their end, or to a fault or want of memory, which is the `Err`,
// and takes or only counts each geometry before it, as `take_geometry` does; if `stops`, only to
// the end of the first geometry that is counted. The session must be new, and nothing may be taken
// before. Takes memory.
fn read_all(
    blobs: &[u8],
    stops: bool,
    session: &mut Session,
    row_array: &mut [BufferRow],
    point_array: &mut [BufferPoint],
    ends: &mut [u64],
    taken: &mut Taken,
) -> Result<(), BlobFault>
    requires new { IsReading (session_limits session.old) row_array.old point_array.old ends.old []
        row_array.old point_array.old ends.old session.old taken.old }
    requires none { taken.old.passed ≡ 0 }
    ensures { ReadsTo (session_limits session.old) stops blobs.now row_array.old point_array.old ends.old
        row_array.new point_array.new ends.new taken.new result }
{
    let mut used = 0;
    while used < blobs.len() {
        match read_next(blobs, used, session, row_array, point_array, ends, taken) {
            Ok(next) => used = next,
            Err(fault) => return Err(fault),
        }
        if stops && taken.passed > 0 {
            return session.finish();
        }
    }
    session.finish()
}

/// Reads a stream of blobs into arrays: the rows of its geometries as a table has them (blobs:
/// TWKB; rows: profile), each with the number of its points, and the points of all rows in one
/// list. If `ends` has places, it gets the offset after each geometry in the stream. A blob that is
/// refused, as one past the limits is, stops it after the geometries before it. If an array lacks
/// room for a geometry, it and later ones are only counted: status 5, even if a later blob is
/// refused; if `stops`, the call ends after the first such geometry. Places after what is written
/// are unchanged. Takes memory for one geometry.
pub fn read_arrays(
    alloc: Global,
    blobs: &[u8],
    rows: &mut [BufferRow],
    points: &mut [BufferPoint],
    ends: &mut [u64],
    limits: Limits,
    stops: bool,
) -> BufferCounts
    ensures reads { stops ≡ false → ReadsArrays limits blobs.now rows.old points.old ends.old
        rows.new points.new ends.new result }
    ensures within_room { stops ≡ true → ReadsWithinRoom limits blobs.now rows.old points.old ends.old
        rows.new points.new ends.new result }
{
    let mut session = Session::new(alloc, limits);
    let mut taken = Taken::nothing();
    let answer = read_all(blobs, stops, &mut session, rows, points, ends, &mut taken);
    counted(&taken, answer)
}
