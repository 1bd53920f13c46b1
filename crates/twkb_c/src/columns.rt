//! The function for C that converts a column of a CSV, as declared in `include/polytwkb.h`.
ghost use Rattle.std.specs.Prelude.{◌≡◌, IfSome, IsNone};
ghost use Rattle.twkb_c.specs.ColumnCalls.{CallsColumn, DoesCall, IsColumnCall, IsDelimiterAt, IsNoDelimiter};
ghost use Rattle.twkb_c.specs.ColumnCalls.{conversion_with, precision_at};
ghost use Rattle.twkb_c.specs.ColumnWords.{IsEnded};
ghost use Rattle.twkb_c.specs.declared.columns.ColumnCall.{ColumnCall};

use crate::arguments::{MEMORY, nothing_done, refused_arguments, style_of};
use crate::column_words::{column_of, is_ended, words_in};
use crate::options::{
    COLUMN_KNOWN, DELIMITER, PRECISION, STYLE, are_options, option_at, option_limits,
};
use std::alloc::Global;
use twkb_buffer::{BufferReport, ColumnConversion, fill_column};
use twkb_convert::{Limits, Style};

/// What is asked for of a column.
#[derive(Clone, Copy)]
pub struct ColumnCall {
    /// The conversion.
    pub what: ColumnConversion,
    /// The most that one geometry may have.
    pub limits: Limits,
    /// Decimals of both coordinates, -8 to 7; -9 if they are not given.
    pub precision: i8,
    /// The byte between two fields.
    pub delimiter: u8,
}

// What a word for the precision is more than the precision.
const PRECISION_SHIFT: i8 = 9;

// The most that a word for the precision is.
const PRECISION_MOST: u32 = 16;

// The precision that a word gives, -8 to 7, or -9 if it is left out; `None` if it is out of range.
fn precision_of(word: u32) -> Option<i8>
    ensures { result ≡ precision_at word }
{
    if word > PRECISION_MOST {
        return None;
    }
    Some(word as i8 - PRECISION_SHIFT)
}

// The byte between two fields that a word gives: a comma if it is left out; `None` for a quote, CR,
// LF and what is not ASCII.
fn delimiter_of(word: u32) -> Option<u8>
    ensures some { IfSome result (IsDelimiterAt word) }
    ensures none { IsNone result → IsNoDelimiter word }
{
    if word == 0 {
        return Some(b',');
    }
    if word >= 128 || word == 34 || word == 13 || word == 10 {
        return None;
    }
    Some(word as u8)
}

// The conversion of a column with a number: 0 packs, and needs a precision; 1 unpacks; `None` for
// any other.
fn conversion_of(number: u32, style: Style, precision: u32) -> Option<ColumnConversion>
    ensures { result ≡ conversion_with number style precision }
{
    match number {
        0 if precision != 0 => Some(ColumnConversion::Pack(style)),
        1 => Some(ColumnConversion::Unpack),
        _ => None,
    }
}

// What is asked for; `None` if a number is out of range.
fn call_of(number: u32, options: &[u32]) -> Option<ColumnCall>
    ensures some { IfSome result (IsColumnCall number options.now) }
    ensures none { IsNone result → (call : ColumnCall) → IsColumnCall number options.now call → ⊥ }
{
    if !are_options(options, COLUMN_KNOWN) {
        return None;
    }
    let word = option_at(options, PRECISION);
    let style = style_of(option_at(options, STYLE))?;
    let what = conversion_of(number, style, word)?;
    let limits = option_limits(options).limits()?;
    let precision = precision_of(word)?;
    let delimiter = delimiter_of(option_at(options, DELIMITER))?;
    Some(ColumnCall {
        what,
        limits,
        precision,
        delimiter,
    })
}

// Converts a column as C asks for it, with these words, which end with a zero byte.
fn convert_words(
    alloc: Global,
    call: ColumnCall,
    input: &[u8],
    output: &mut [u8],
    words: &[u8],
) -> BufferReport
    requires { IsEnded words.now }
    ensures { DoesCall call input.now words.now output.old output.new result }
{
    let Ok(words) = words_in(alloc, words) else {
        return nothing_done(MEMORY);
    };
    let column = column_of(&words, call.precision, call.delimiter);
    fill_column(alloc, call.what, column, input, output, call.limits)
}

/// Converts a column of a CSV, as `fill_column` does: with number 0 packs it, with number 1 unpacks a
/// stream to it. The words are the column's name, the name of the column of ids, which is empty if
/// there is none, and the words for a missing value, each with a zero byte after it; those after the
/// name may be left out, and unpacking uses none of them. The options are those of `polytwkb_convert`,
/// then the precision plus 9, which packing needs, and the byte between two fields, 0 for a comma. If
/// the words do not end with a zero byte, or a number is out of range, the status is 2, and the
/// buffer is as it was. Takes memory as `fill_column` does, and for a list of the words.
#[unsafe(no_mangle)]
pub extern "C" fn polytwkb_convert_column(
    alloc: Global,
    conversion: u32,
    input: &[u8],
    output: &mut [u8],
    words: &[u8],
    options: &[u32],
) -> BufferReport
    ensures { CallsColumn conversion options.now input.now words.now output.old output.new result }
{
    let Some(call) = call_of(conversion, options) else {
        return refused_arguments();
    };
    if !is_ended(words) {
        return refused_arguments();
    }
    convert_words(alloc, call, input, output, words)
}
