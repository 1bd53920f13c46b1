//! The functions for C, as declared in `include/polytwkb.h`.
ghost use Rattle.std.specs.Prelude.{◌≡◌, ◌<◌, ◌≤◌, length};
ghost use Rattle.twkb_tree.specs.Tree.{IsPrecision};
ghost use Rattle.twkb_tree.specs.Limits.{standard_limits};
ghost use Rattle.twkb_convert.specs.Version.{version_text};
ghost use Rattle.twkb_conversions.specs.Conversions.{outputs_of};
ghost use Rattle.twkb_buffer.specs.Calls.{FillsSlice, Measures};
ghost use Rattle.twkb_buffer.specs.Polylines.{DecodesSlice, EncodesSlice, nothing_report};
ghost use Rattle.twkb_buffer.specs.RoundedNumbers.{Rounds};
ghost use Rattle.twkb_buffer.specs.Texts.{AreWordsOf, PutsText};
ghost use Rattle.twkb_c.specs.Arguments.{AreOptions, CallsConversion, allowance_of, arguments_report};
ghost use Rattle.twkb_c.specs.Arguments.{option_at, option_limits};

use crate::arguments::{BufferLimits, refused_arguments, style_of};
use crate::options::{KNOWN, STYLE, are_options, option_at, option_limits};
use std::alloc::Global;
use twkb_buffer::{
    BufferPoint, BufferReport, Conversion, fill, fill_points, fill_polyline, measure, put_reason,
    put_version, round_numbers,
};
use twkb_tree::{NEST_STANDARD, NODES_CAP, POINTS_CAP};

/// The standard limits: at most 16 collections around a geometry, 2^20 rows and 2^24 points. Takes
/// no memory.
#[unsafe(no_mangle)]
pub extern "C" fn polytwkb_standard_limits() -> BufferLimits
    ensures { allowance_of result ≡ standard_limits }
{
    BufferLimits {
        nest: NEST_STANDARD,
        nodes: NODES_CAP,
        points: POINTS_CAP,
    }
}

// Converts a buffer by the conversion with a number, as `fill` does, within limits and in a style as
// C passes them. If one of these is out of range, the status is 2, and the buffer is as it was.
fn convert_within(
    alloc: Global,
    conversion: u32,
    input: &[u8],
    output: &mut [u8],
    limits: BufferLimits,
    style: u32,
) -> BufferReport
    ensures converts { CallsConversion (λ what l. FillsSlice (outputs_of what l input.now) output.new result)
        conversion limits style result }
    ensures refused { result.status ≡ 2 → output.new ≡ output.old }
{
    let (Some(limits), Some(style)) = (limits.limits(), style_of(style)) else {
        return refused_arguments();
    };
    match Conversion::numbered(conversion, style) {
        Some(what) => fill(alloc, what, input, output, limits),
        None => refused_arguments(),
    }
}

/// Converts a buffer by the conversion with a number, its place in `CONVERSIONS`, as `fill` does.
/// The options are words of 32 bits: their size in bytes, the style, 0 (full) or 1 (plain), and the
/// three limits, of which three zeros are the standard ones. Words that are left out are 0. If the
/// size is another one, a later word is not 0, or the conversion, the limits or the style are out of
/// range, the status is 2, and the buffer is as it was. Takes memory as the conversion does.
#[unsafe(no_mangle)]
pub extern "C" fn polytwkb_convert(
    alloc: Global,
    conversion: u32,
    input: &[u8],
    output: &mut [u8],
    options: &[u32],
) -> BufferReport
    ensures converts { AreOptions options.now
        → CallsConversion (λ what l. FillsSlice (outputs_of what l input.now) output.new result)
        conversion (option_limits options.now) (option_at options.now 1) result }
    ensures no_options { (AreOptions options.now → ⊥) → result ≡ arguments_report }
    ensures refused { result.status ≡ 2 → output.new ≡ output.old }
{
    if !are_options(options, KNOWN) {
        return refused_arguments();
    }
    let limits = option_limits(options);
    convert_within(
        alloc,
        conversion,
        input,
        output,
        limits,
        option_at(options, STYLE),
    )
}

/// Packs a table into a buffer, in style 0 (full) or 1 (plain): `polytwkb_convert` with the number 0.
#[unsafe(no_mangle)]
pub extern "C" fn polytwkb_pack(
    alloc: Global,
    input: &[u8],
    output: &mut [u8],
    limits: BufferLimits,
    style: u32,
) -> BufferReport
    ensures packs { CallsConversion (λ what l. FillsSlice (outputs_of what l input.now) output.new result)
        0 limits style result }
    ensures refused { result.status ≡ 2 → output.new ≡ output.old }
{
    convert_within(alloc, 0, input, output, limits, style)
}

/// Unpacks a stream into a buffer: `polytwkb_convert` with the number 1.
#[unsafe(no_mangle)]
pub extern "C" fn polytwkb_unpack(
    alloc: Global,
    input: &[u8],
    output: &mut [u8],
    limits: BufferLimits,
) -> BufferReport
    ensures unpacks { CallsConversion (λ what l. FillsSlice (outputs_of what l input.now) output.new result)
        1 limits 0 result }
    ensures refused { result.status ≡ 2 → output.new ≡ output.old }
{
    convert_within(alloc, 1, input, output, limits, 0)
}

/// Writes the lines that `show` prints for a stream into a buffer: `polytwkb_convert` with the
/// number 2.
#[unsafe(no_mangle)]
pub extern "C" fn polytwkb_show(
    alloc: Global,
    input: &[u8],
    output: &mut [u8],
    limits: BufferLimits,
) -> BufferReport
    ensures shows { CallsConversion (λ what l. FillsSlice (outputs_of what l input.now) output.new result)
        2 limits 0 result }
    ensures refused { result.status ≡ 2 → output.new ≡ output.old }
{
    convert_within(alloc, 2, input, output, limits, 0)
}

/// Measures the output of the conversion with a number in bytes, as `measure` does, and writes
/// nothing. If the conversion, the limits or the style (0 or 1, which is always looked at) are out of
/// range, the status is 2. Takes memory as the conversion does.
#[unsafe(no_mangle)]
pub extern "C" fn polytwkb_measure(
    alloc: Global,
    conversion: u32,
    input: &[u8],
    limits: BufferLimits,
    style: u32,
) -> BufferReport
    ensures measures { CallsConversion (λ what l. Measures (outputs_of what l input.now) result)
        conversion limits style result }
{
    let (Some(limits), Some(style)) = (limits.limits(), style_of(style)) else {
        return refused_arguments();
    };
    match Conversion::numbered(conversion, style) {
        Some(what) => measure(alloc, what, input, limits),
        None => refused_arguments(),
    }
}

/// Writes the encoded polyline of points into a buffer if there is room for all of it, as
/// `fill_polyline` does. Takes memory for the points and the text.
#[unsafe(no_mangle)]
pub extern "C" fn polytwkb_encode(
    alloc: Global,
    points: &[BufferPoint],
    text: &mut [u8],
) -> BufferReport
    ensures { EncodesSlice points.now text.old text.new result }
{
    fill_polyline(alloc, points, text)
}

/// Writes the points of an encoded polyline into an array if there is room for all of them, as
/// `fill_points` does. Takes memory for the points, twice.
#[unsafe(no_mangle)]
pub extern "C" fn polytwkb_decode(
    alloc: Global,
    text: &[u8],
    points: &mut [BufferPoint],
) -> BufferReport
    ensures { DecodesSlice text.now points.old points.new result }
{
    fill_points(alloc, text, points)
}

/// Rounds doubles, given by their bits, to coordinates of a precision, in units of 10^-precision,
/// as `round_numbers` does. Takes no memory.
#[unsafe(no_mangle)]
pub extern "C" fn polytwkb_round(numbers: &[u64], precision: i32, units: &mut [i64]) -> BufferReport
    ensures rounds { IsPrecision precision → length numbers.now ≤ length units.old
        → Rounds precision numbers.now units.old units.new result }
    ensures small { IsPrecision precision → length units.old < length numbers.now
        → (units.new ≡ units.old) × (result ≡ nothing_report 5 (length numbers.now)) }
    ensures precision_out_of_range { (IsPrecision precision → ⊥)
        → (units.new ≡ units.old) × (result ≡ arguments_report) }
{
    round_numbers(numbers, precision, units)
}

/// Copies the text of the reason with this number, cut if there is too little room, and after it a
/// zero byte, to the start of a buffer; an empty buffer stays as it is. Returns the length of the
/// whole text without the zero byte, at most 31. A number that no reason has gives the empty text.
/// Takes no memory.
#[unsafe(no_mangle)]
pub extern "C" fn polytwkb_reason_text(reason: u32, text: &mut [u8]) -> usize
    ensures { PutsText (AreWordsOf reason) text.old text.new result }
{
    put_reason(reason, text)
}

/// Copies the version of the library, cut if there is too little room, and after it a zero byte, to
/// the start of a buffer; an empty buffer stays as it is. Returns the length of the whole text
/// without the zero byte, at most 31. Takes no memory.
#[unsafe(no_mangle)]
pub extern "C" fn polytwkb_version(text: &mut [u8]) -> usize
    ensures { PutsText (λ words. words ≡ version_text) text.old text.new result }
{
    put_version(text)
}
