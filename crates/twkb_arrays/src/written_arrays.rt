//! Rows and points in arrays as streams of blobs.
ghost use Rattle.std.specs.Prelude.{◌≡◌, ◌⊎◌, ◌<◌, ◌≤◌, ◌+◌, ◌++◌, List, ℕ, [], length, take, drop, true, false};
ghost use Rattle.std.specs.Prelude.{IfOk, IfErr, IfSome};
ghost use Rattle.twkb_tree.specs.Limits.{Allowance};
ghost use Rattle.twkb_tree.specs.Tree.{Tree};
ghost use Rattle.twkb_grammar.specs.declared.style.Style.{Style as InStyle};
ghost use Rattle.twkb_tree.specs.Rows.{AreValidRowsOfOne};
ghost use Rattle.twkb_buffer.specs.declared.point.BufferPoint.{BufferPoint as InPoint};
ghost use Rattle.twkb_arrays.specs.declared.row.BufferRow.{BufferRow as InRow};
ghost use Rattle.twkb_arrays.specs.JudgedRow.{BeginWithRoot};
ghost use Rattle.twkb_arrays.specs.SentBlobs.{AreTaken, HasSent, IsSentWithin};
ghost use Rattle.twkb_arrays.specs.WrittenArrays.{EndsEarly, GoesOn, HasReadRow, IsWriting, MayRead, ReportsAs};
ghost use Rattle.twkb_arrays.specs.WrittenArrays.{StopsAtRow, StopsFull, WritesArrays};
ghost use Rattle.twkb_arrays.specs.WrittenArrays.{WritesTo, WritesWithinRoom, stopped_at, write_index_of};
ghost use Rattle.twkb_flat.specs.declared.stop.Stop.TheVariants.{Refused};
ghost use Rattle.twkb_arrays.specs.WrittenArrays.{write_outcome_of};

use crate::appended_row::push_judged;
use crate::judged_row::index_outside;
use crate::lone_row::make_first;
use crate::row::BufferRow;
use crate::sent_blobs::Sent;
use crate::status::unless_full;
use crate::writer::{ReadCounts, Writer};
use std::alloc::Global;
use twkb_buffer::{BufferPoint, BufferReport};
use twkb_flat::Stop;
use twkb_tree::Limits;
use twkb_writer::Style;

// The number of the reason for which points that no row names are refused.
const POINTS_LEFT: u32 = 72;

// The row at this place is refused for the reason with this number, or the points after the last
// row are. The index is that of the row's first point out of range, if that is the reason, and else
// 0.
#[derive(Clone, Copy)]
pub(crate) struct RefusedAt {
    place: u64,
    number: u32,
    index: u64,
}

// Reads the first of `rows`, of which there must be one, with as many of the points ahead as it
// names, and returns how many, or `None` after a blob without room if the call stops there. If
// the row is a root, first ends the open geometry. If it is known to be a whole geometry, its
// blob is at once written, or counted; else it is appended to the open geometry. So many rows
// and points were read before. The outputs must be those that have the earlier blobs, and the
// rows of the open geometry must be valid. An `Err` is want of memory, or the number of the
// reason to refuse the row; the open geometry may then be ended, but the row is neither
// appended nor written.
#[inline(always)]
fn write_row(
    writer: &mut Writer,
    limits: &Limits,
    style: Style,
    stops: bool,
    read: ReadCounts,
    rows: &[BufferRow],
    ahead: &[BufferPoint],
    output: &mut [u8],
    ends: &mut [u64],
) -> Result<Option<usize>, Stop<u32>>
    requires { MayRead limits.now stops rows.now output.old ends.old writer.old }
    ensures reads { IfOk result (λ found. IfSome found (HasReadRow limits.now style stops read rows.now
        ahead.now output.old ends.old writer.old output.new ends.new writer.new)) }
    ensures full { IfOk result (λ found. found ≡ None → StopsFull limits.now style stops read rows.now
        ahead.now output.old ends.old writer.old output.new ends.new writer.new) }
    ensures stops { IfErr result (StopsAtRow limits.now style stops read rows.now ahead.now output.old ends.old
        writer.old output.new ends.new writer.new) }
{
    let Ok(goes_on) = writer.end_before(style, stops, read, &rows[0], output, ends) else {
        return Err(Stop::Memory);
    };
    if !goes_on {
        return Ok(None);
    }
    match make_first(*limits, style, rows, ahead, &mut writer.room) {
        Ok(Some(count)) => {
            if writer.send(stops, read, output, ends) {
                Ok(Some(count))
            } else {
                Ok(None)
            }
        }
        Ok(None) => match push_judged(*limits, &mut writer.open_geometry, &rows[0], ahead) {
            Ok(count) => Ok(Some(count)),
            Err(stop) => Err(stop),
        },
        Err(_) => Err(Stop::Memory),
    }
}

// Reads rows, each with as many of the next points as it names, writes the blob of each
// geometry but the last one, as far as there is room, and returns the number of points that the
// rows have, or `None` after a blob without room if the call stops there. The writer must be
// new. An `Err` is want of memory, or the first row that is refused.
fn write_rows(
    writer: &mut Writer,
    limits: &Limits,
    style: Style,
    stops: bool,
    rows: &[BufferRow],
    points: &[BufferPoint],
    output: &mut [u8],
    ends: &mut [u64],
) -> Result<Option<usize>, Stop<RefusedAt>>
    requires new { IsWriting limits.now style output.old ends.old [] [] output.old ends.old writer.old }
    requires none { writer.old.sent.passed ≡ 0 }
    ensures few { IfOk result (λ found. IfSome found (λ used. used ≤ length points.now)) }
    ensures reads { IfOk result (λ found. IfSome found (λ used. IsWriting limits.now style output.old
        ends.old rows.now (take used points.now) output.new ends.new writer.new)) }
    ensures last { IfOk result (λ found. IfSome found (λ used. writer.new.open_geometry ≡ [] → rows.now ≡ [])) }
    ensures on { IfOk result (λ found. IfSome found (λ used. GoesOn stops writer.new.sent)) }
    ensures early { EndsEarly limits.now style stops rows.now points.now output.old ends.old output.new
        ends.new writer.new.sent result }
{
    let mut used = 0;
    for at in 0..rows.len() {
        let read = ReadCounts {
            rows: at,
            points: used,
        };
        let more = &rows[at..];
        let left = &points[used..];
        match write_row(writer, limits, style, stops, read, more, left, output, ends) {
            Ok(Some(count)) => used += count,
            Ok(None) => return Ok(None),
            Err(stop) => {
                writer.note(read);
                return Err(at_row(at, left, stop));
            }
        }
    }
    Ok(Some(used))
}

// Reads rows, each with as many of the next points as it names, and writes the blob of each
// geometry, as far as there is room; if `stops`, only up to the first without room. The writer
// must be new. An `Err` is want of memory, the first row that is refused, or that points are
// left over; the blob of the last geometry is then not made.
fn write_all(
    writer: &mut Writer,
    limits: &Limits,
    style: Style,
    stops: bool,
    rows: &[BufferRow],
    points: &[BufferPoint],
    output: &mut [u8],
    ends: &mut [u64],
) -> Result<(), Stop<RefusedAt>>
    requires new { IsWriting limits.now style output.old ends.old [] [] output.old ends.old writer.old }
    requires none { writer.old.sent.passed ≡ 0 }
    ensures { WritesTo limits.now style stops rows.now points.now output.old ends.old output.new
        ends.new writer.new.sent result }
{
    let used = match write_rows(writer, limits, style, stops, rows, points, output, ends) {
        Ok(Some(count)) => count,
        Ok(None) => return Ok(()),
        Err(stop) => return Err(stop),
    };
    let read = ReadCounts {
        rows: rows.len(),
        points: used,
    };
    if used < points.len() {
        writer.note(read);
        return Err(points_left(rows.len()));
    }
    match writer.end_geometry(style, stops, read, output, ends) {
        Ok(_) => {
            writer.note(read);
            Ok(())
        }
        Err(_) => {
            writer.note(read);
            Err(Stop::Memory)
        }
    }
}

// The reason why writing stopped at the row at this place: want of memory, or a refusal with the
// place and the index of the row's first point out of range, if that is the reason, or else 0.
// `ahead` has the points from the row's first one on.
#[cold]
fn at_row(place: usize, ahead: &[BufferPoint], stop: Stop<u32>) -> Stop<RefusedAt>
    ensures { result ≡ stopped_at place ahead.now stop }
{
    match stop {
        Stop::Memory => Stop::Memory,
        Stop::Refused(number) => Stop::Refused(RefusedAt {
            place: place as u64,
            number,
            index: index_outside(number, ahead) as u64,
        }),
    }
}

// The refusal of points that are left over after so many rows.
fn points_left(rows: usize) -> Stop<RefusedAt>
    ensures { result ≡ Refused (record { place = rows; number = 72; index = 0 }) }
{
    Stop::Refused(RefusedAt {
        place: rows as u64,
        number: POINTS_LEFT,
        index: 0,
    })
}

// The status, the reason and the place to report for a writing with this result: status 4 if memory
// was refused, else 5 if the output had too little room (`full`), else 1 with the refusal, or 0.
fn outcome(full: bool, answer: Result<(), Stop<RefusedAt>>) -> (u32, u32, u64)
    ensures { result ≡ write_outcome_of full answer }
{
    match answer {
        Ok(()) => unless_full(full, (0, 0, 0)),
        Err(Stop::Memory) => (4, 0, 0),
        Err(Stop::Refused(at)) => unless_full(full, (1, at.number, at.place)),
    }
}

// The index to report for a writing with this result: that of the refused row's first point out of
// range, if that is the reason and the output had room (`full` is false); else 0.
fn refused_index(full: bool, answer: Result<(), Stop<RefusedAt>>) -> u64
    ensures { result ≡ write_index_of full answer }
{
    match answer {
        Ok(()) => 0,
        Err(Stop::Memory) => 0,
        Err(Stop::Refused(at)) => { if full { 0 } else { at.index } }
    }
}

// The report of a writing with this result that wrote the blobs in `sent`.
fn reported(sent: &Sent, answer: Result<(), Stop<RefusedAt>>) -> BufferReport
    ensures { (style : InStyle) (start start_ends output ends : List ℕ) (given later : List Tree)
        → HasSent style start start_ends given later output ends sent.now → AreTaken given sent.now
        → ReportsAs style given later answer result }
{
    let (status, reason, place) = outcome(sent.passed > 0, answer);
    BufferReport {
        status,
        reason,
        place,
        text_offset: refused_index(sent.passed > 0, answer),
        done: sent.done as u64,
        sent: sent.bytes as u64,
        needed: (sent.bytes as u64).saturating_add(sent.passed_bytes),
        taken: sent.rows as u64,
        taken_points: sent.points as u64,
        reserved_1: 0,
        reserved_2: 0,
    }
}

/// Writes rows, in a table's order (profile), and their points as canonical blobs in a style, one
/// for each geometry. If `ends` has places, it gets the place in the output after each blob. Stops
/// at a refused row, after the blobs of the geometries complete before it, or at the end if points
/// are left over, before the last blob; the place is the row's index from 0, or the number of rows.
/// If an output lacks room for a blob, it and later ones are only counted: status 5, even if a
/// later row is refused; if `stops`, the call ends after the first such blob. `needed` is the
/// number of bytes of all blobs, written or counted, and `taken` and `taken_points` are the numbers
/// of rows and points of those written. Bytes and places after what is written are unchanged. Takes
/// memory for one geometry and its blob.
pub fn write_arrays(
    alloc: Global,
    rows: &[BufferRow],
    points: &[BufferPoint],
    output: &mut [u8],
    ends: &mut [u64],
    limits: Limits,
    style: Style,
    stops: bool,
) -> BufferReport
    ensures writes { stops ≡ false → WritesArrays limits style rows.now points.now output.old ends.old
        output.new ends.new result }
    ensures within_room { stops ≡ true → WritesWithinRoom limits style rows.now points.now output.old
        ends.old output.new ends.new result }
{
    let mut writer = Writer::new(alloc, output.len());
    let answer = write_all(
        &mut writer,
        &limits,
        style,
        stops,
        rows,
        points,
        output,
        ends,
    );
    reported(&writer.sent, answer)
}
