//! The functions for C that read a stream into arrays and write one from arrays, as declared in
//! `include/polytwkb.h`.
ghost use Rattle.std.specs.Prelude.{◌≡◌, ◌<◌};
ghost use Rattle.twkb_tree.specs.Limits.{IsAllowance};
ghost use Rattle.twkb_grammar.specs.declared.style.Style.{Style};
ghost use Rattle.twkb_arrays.specs.FilledArrays.{ReadsArrays, ReadsWithinRoom};
ghost use Rattle.twkb_arrays.specs.WrittenArrays.{WritesArrays, WritesWithinRoom};
ghost use Rattle.twkb_c.specs.Arguments.{IsStyleNumber, allowance_of, arguments_counts, arguments_report};

use crate::arguments::{BufferLimits, refused_arguments, refused_counts, stops_of, style_of};
use std::alloc::Global;
use twkb_arrays::{BufferCounts, BufferRow, read_arrays, write_arrays};
use twkb_buffer::{BufferPoint, BufferReport};

/// Reads a stream of blobs into arrays of rows, of points and of ends, as `read_arrays` does; with
/// flag 1 up to the first geometry for which an array has too little room. If the limits or the
/// flags are out of range, the status is 2, and the arrays are as they were. Takes memory for one
/// geometry.
#[unsafe(no_mangle)]
pub extern "C" fn polytwkb_read(
    alloc: Global,
    blobs: &[u8],
    rows: &mut [BufferRow],
    points: &mut [BufferPoint],
    ends: &mut [u64],
    limits: BufferLimits,
    flags: u32,
) -> BufferCounts
    ensures reads { IsAllowance (allowance_of limits) → flags ≡ 0
        → ReadsArrays (allowance_of limits) blobs.now rows.old points.old ends.old rows.new points.new
        ends.new result }
    ensures within_room { IsAllowance (allowance_of limits) → flags ≡ 1
        → ReadsWithinRoom (allowance_of limits) blobs.now rows.old points.old ends.old rows.new
        points.new ends.new result }
    ensures limits_out_of_range { (IsAllowance (allowance_of limits) → ⊥) → result ≡ arguments_counts }
    ensures flags_out_of_range { 1 < flags → result ≡ arguments_counts }
    ensures refused { result.status ≡ 2 → (rows.new ≡ rows.old) × (points.new ≡ points.old)
        × (ends.new ≡ ends.old) }
{
    let (Some(limits), Some(stops)) = (limits.limits(), stops_of(flags)) else {
        return refused_counts();
    };
    read_arrays(alloc, blobs, rows, points, ends, limits, stops)
}

/// Writes arrays of rows and points as a stream of blobs, in style 0 (full) or 1 (plain), and where
/// each blob ends, as `write_arrays` does; with flag 1 up to the first geometry for which an output
/// has too little room. If the limits, the style or the flags are out of range, the status is 2,
/// and the outputs are as they were. Takes memory for one geometry and its blob.
#[unsafe(no_mangle)]
pub extern "C" fn polytwkb_write(
    alloc: Global,
    rows: &[BufferRow],
    points: &[BufferPoint],
    output: &mut [u8],
    ends: &mut [u64],
    limits: BufferLimits,
    style: u32,
    flags: u32,
) -> BufferReport
    ensures writes { IsAllowance (allowance_of limits) → (s : Style) → IsStyleNumber s style
        → flags ≡ 0 → WritesArrays (allowance_of limits) s rows.now points.now output.old ends.old
        output.new ends.new result }
    ensures within_room { IsAllowance (allowance_of limits) → (s : Style) → IsStyleNumber s style
        → flags ≡ 1 → WritesWithinRoom (allowance_of limits) s rows.now points.now output.old ends.old
        output.new ends.new result }
    ensures limits_out_of_range { (IsAllowance (allowance_of limits) → ⊥) → result ≡ arguments_report }
    ensures style_out_of_range { 1 < style → result ≡ arguments_report }
    ensures flags_out_of_range { 1 < flags → result ≡ arguments_report }
    ensures refused { result.status ≡ 2 → (output.new ≡ output.old) × (ends.new ≡ ends.old) }
{
    let (Some(limits), Some(style)) = (limits.limits(), style_of(style)) else {
        return refused_arguments();
    };
    let Some(stops) = stops_of(flags) else {
        return refused_arguments();
    };
    write_arrays(alloc, rows, points, output, ends, limits, style, stops)
}
