//! The line on standard error that says why a conversion stopped, and other texts.
ghost use Rattle.std.specs.Prelude.{◌++◌, ◌≤◌, codes, decimal, length};
ghost use Rattle.twkb_io.specs.declared.TheConstants.{MAX_BYTES};
ghost use Rattle.twkb_engine.specs.Texts.{blob_words};
ghost use Rattle.twkb_column.specs.Causes.{reason_words};
ghost use Rattle.twkb_command.specs.CommandLine.{name_in};
ghost use Rattle.twkb_command.specs.Misuses.{misuse_text, misuse_words, pair_words};
ghost use Rattle.twkb_rest.specs.Unpacked.{line_words};
ghost use Rattle.twkb_command.specs.Printing.{at_byte, before_of, cause_text, file_line, hex_reason_text, line_of};
ghost use Rattle.twkb_command.specs.Printing.{named_line, reason_text};
ghost use Rattle.twkb_command.specs.Printing.{stop_text};
ghost use Rattle.twkb_command.specs.Printing.{text_reason, HasShortName, IsPrinted, Prints};

use crate::misuse::{Misuse, Word};
use crate::stop::Stop;
use itoa::Buffer;
use std::io::Write;
use twkb_column::ColumnReason;
use twkb_convert::{BlobReason, Cause};
use twkb_hex::HexReason;
use twkb_io::{Output, Sink, Tap};
use twkb_polyline::PolyReason;
use twkb_rest::LineReason;
use twkb_table::RowReason;

// What a delimiter that is none is told.
const NO_DELIMITER: &str =
    "error: invalid value for '--delimiter <C>': not one ASCII character or 'tab', or a quotation mark or a line end";

// The end of the text of a misuse, as `clap` writes it.
const HINT: &str = "\n\nFor more information, try '--help'.\n";

// Puts a text to an output, unless an earlier put was refused. A refusal is not reported.
fn put_text<W: Write>(output: &mut Output<'_, W>, text: &str)
    ensures { Prints W.contents output.old text.now output.new }
{
    let _ = output.put(text.as_bytes());
}

// Puts a number as a decimal, as `put_text` puts a text.
fn put_decimal<W: Write>(output: &mut Output<'_, W>, number: u64)
    ensures prints { Prints W.contents output.old (decimal number) output.new }
    ensures short { length (decimal number) ≤ 40 }
{
    let mut buffer = Buffer::new();
    put_text(output, buffer.format(number));
}

// Puts why a polyline is refused: `polyline at `, the offset in the polyline in bytes, a colon, a
// space and the reason.
fn put_text_reason<W: Write>(output: &mut Output<'_, W>, offset: usize, reason: PolyReason)
    ensures prints { Prints W.contents output.old (text_reason offset reason) output.new }
    ensures short { length (text_reason offset reason) ≤ 100 }
{
    put_text(output, "polyline at ");
    put_decimal(output, offset as u64);
    put_text(output, ": ");
    put_text(output, reason.text());
}

// Puts the reason for which a record is refused, with the offset in its polyline if that is
// refused.
fn put_row_reason<W: Write>(output: &mut Output<'_, W>, reason: RowReason)
    ensures prints { Prints W.contents output.old (reason_text reason) output.new }
    ensures short { length (reason_text reason) ≤ 100 }
{
    match reason {
        RowReason::Polyline(offset, fault) => put_text_reason(output, offset, fault),
        _ => put_text(output, reason.text()),
    }
}

// Puts why a record is refused: `record `, the number of the record, a colon, a space and the
// reason; nothing more after a put was refused, which is not reported.
fn put_row<W: Write>(output: &mut Output<'_, W>, number: u64, reason: RowReason)
    ensures prints { Prints W.contents output.old
        (codes "record " ++ (decimal number ++ (codes ": " ++ reason_text reason))) output.new }
    ensures short { length (codes "record " ++ (decimal number ++ (codes ": " ++ reason_text reason))) ≤ 160 }
{
    put_text(output, "record ");
    put_decimal(output, number);
    put_text(output, ": ");
    put_row_reason(output, reason);
}

// Puts why an item of a stream is refused: `byte `, the offset of the item, a colon, a space and
// the reason; nothing more after a put was refused, which is not reported.
fn put_blob<W: Write>(output: &mut Output<'_, W>, offset: u64, reason: BlobReason)
    ensures prints { Prints W.contents output.old
        (codes "byte " ++ (decimal offset ++ (codes ": " ++ blob_words reason))) output.new }
    ensures short { length (codes "byte " ++ (decimal offset ++ (codes ": " ++ blob_words reason))) ≤ 160 }
{
    put_text(output, "byte ");
    put_decimal(output, offset);
    put_text(output, ": ");
    put_text(output, reason.text());
}

// Puts why a conversion stopped, with the number of the record or the offset of the item if one is
// refused.
fn put_cause<W: Write>(output: &mut Output<'_, W>, cause: Cause)
    ensures prints { Prints W.contents output.old (cause_text cause) output.new }
    ensures short { length (cause_text cause) ≤ 160 }
{
    match cause {
        Cause::Row { number, reason } => put_row(output, number, reason),
        Cause::Blob { offset, reason } => put_blob(output, offset, reason),
        _ => put_text(output, cause.text()),
    }
}

// Puts why a record of a CSV is refused, as `put_row` does.
fn put_csv<W: Write>(output: &mut Output<'_, W>, number: u64, reason: ColumnReason)
    ensures prints { Prints W.contents output.old
        (codes "record " ++ (decimal number ++ (codes ": " ++ reason_words reason))) output.new }
    ensures short { length (codes "record " ++ (decimal number ++ (codes ": " ++ reason_words reason))) ≤ 160 }
{
    put_text(output, "record ");
    put_decimal(output, number);
    put_text(output, ": ");
    put_text(output, reason.text());
}

// Puts `byte `, an offset in a blob, a colon, a space and a reason of at most 31 bytes.
fn put_at_byte<W: Write>(output: &mut Output<'_, W>, offset: u64, text: &str)
    ensures prints { Prints W.contents output.old (at_byte offset text.now) output.new }
    ensures short { length text.now ≤ 31 → length (at_byte offset text.now) ≤ 100 }
{
    put_text(output, "byte ");
    put_decimal(output, offset);
    put_text(output, ": ");
    put_text(output, text);
}

// Puts the reason for which a field of a column is not converted from digits or to them, with the
// offset in its polyline or in its blob if that is refused.
fn put_hex_reason<W: Write>(output: &mut Output<'_, W>, reason: HexReason)
    ensures prints { Prints W.contents output.old (hex_reason_text reason) output.new }
    ensures short { length (hex_reason_text reason) ≤ 100 }
{
    let text = reason.text();
    match reason {
        HexReason::Polyline(offset, fault) => put_text_reason(output, offset, fault),
        HexReason::NoDigits(offset) => put_at_byte(output, offset as u64, text),
        HexReason::OddDigits(offset) => put_at_byte(output, offset as u64, text),
        HexReason::Blob(offset, _) => put_at_byte(output, offset, text),
        HexReason::NoLinestring => put_at_byte(output, 0, text),
        HexReason::MoreBlobs(offset) => put_at_byte(output, offset as u64, text),
        _ => put_text(output, text),
    }
}

// Puts why a record of a CSV is not converted from digits or to them, as `put_row` does.
fn put_hex<W: Write>(output: &mut Output<'_, W>, number: u64, reason: HexReason)
    ensures prints { Prints W.contents output.old
        (codes "record " ++ (decimal number ++ (codes ": " ++ hex_reason_text reason))) output.new }
    ensures short { length (codes "record " ++ (decimal number ++ (codes ": " ++ hex_reason_text reason))) ≤ 160 }
{
    put_text(output, "record ");
    put_decimal(output, number);
    put_text(output, ": ");
    put_hex_reason(output, reason);
}

// Puts why a blob can't be a field of a column, as `put_blob` does.
fn put_line_reason<W: Write>(output: &mut Output<'_, W>, offset: u64, reason: LineReason)
    ensures prints { Prints W.contents output.old
        (codes "byte " ++ (decimal offset ++ (codes ": " ++ line_words reason))) output.new }
    ensures short { length (codes "byte " ++ (decimal offset ++ (codes ": " ++ line_words reason))) ≤ 160 }
{
    put_text(output, "byte ");
    put_decimal(output, offset);
    put_text(output, ": ");
    put_text(output, reason.text());
}

// Puts why a job stopped, with the number of the record or the offset of the item if one is refused.
fn put_stop<W: Write>(output: &mut Output<'_, W>, stop: Stop)
    ensures prints { Prints W.contents output.old (stop_text stop) output.new }
    ensures short { length (stop_text stop) ≤ 160 }
{
    match stop {
        Stop::Cause(cause) => put_cause(output, cause),
        Stop::Csv { number, reason } => put_csv(output, number, reason),
        Stop::Hex { number, reason } => put_hex(output, number, reason),
        Stop::Line { offset, reason } => put_line_reason(output, offset, reason),
    }
}

// Puts the name of a file, a colon and a space.
fn put_file<W: Write>(output: &mut Output<'_, W>, name: &str)
    ensures { Prints W.contents output.old (name.now ++ codes ": ") output.new }
{
    put_text(output, name);
    put_text(output, ": ");
}

// Puts the name of a file, a colon and a space, or nothing if there is no name.
fn put_name<W: Write>(output: &mut Output<'_, W>, name: Option<&str>)
    ensures { Prints W.contents output.old (before_of (name_in name.entry)) output.new }
{
    match name {
        Some(name) => put_file(output, name),
        None => put_text(output, ""),
    }
}

// Puts the line that says why a job stopped: `polytwkb: `, the name of a file if there is one, the
// reason with its place, and LF.
fn put_line<W: Write>(output: &mut Output<'_, W>, name: Option<&str>, stop: Stop)
    ensures prints { Prints W.contents output.old (named_line (name_in name.entry) stop) output.new }
    ensures short { HasShortName (name_in name.entry) → length (named_line (name_in name.entry) stop) ≤ MAX_BYTES }
{
    put_text(output, "polytwkb: ");
    put_name(output, name);
    put_stop(output, stop);
    put_text(output, "\n");
}

// Puts two options and what is said of them: a quotation mark is before and after it.
fn put_pair<W: Write>(output: &mut Output<'_, W>, word: Word, said: &str, other: Word)
    ensures { Prints W.contents output.old (pair_words word said.now other) output.new }
{
    put_text(output, "error: the argument '");
    put_text(output, word.shown());
    put_text(output, said);
    put_text(output, other.shown());
    put_text(output, "'");
}

// Puts what a misuse says.
fn put_misuse<W: Write>(output: &mut Output<'_, W>, misuse: Misuse)
    ensures { Prints W.contents output.old (misuse_words misuse) output.new }
{
    match misuse {
        Misuse::Without(word, other) => put_pair(output, word, "' cannot be used without '", other),
        Misuse::With(word, other) => put_pair(output, word, "' cannot be used with '", other),
        Misuse::NoDelimiter => put_text(output, NO_DELIMITER),
    }
}

// Puts the text of a misuse, and flushes the output, unless a put was refused. A failure is not
// reported.
fn put_misuse_text<W: Write>(output: &mut Output<'_, W>, misuse: Misuse)
    ensures prints { Prints W.contents output.old (misuse_text misuse) output.new }
    ensures short { length (misuse_text misuse) ≤ MAX_BYTES }
{
    put_misuse(output, misuse);
    put_flushed(output, HINT);
}

// Writes the text of a misuse, as `print_text` writes one.
pub(crate) fn print_misuse<W: Write>(device: &mut Tap<W>, misuse: Misuse)
    ensures { IsPrinted W.contents device.old (misuse_text misuse) device.new }
{
    let mut output = Output::new(device);
    put_misuse_text(&mut output, misuse);
}

// Puts the line of a file that the system refuses: `polytwkb: `, its name, a colon and a space, the
// system's words, and LF.
fn put_file_line<W: Write>(output: &mut Output<'_, W>, name: &str, words: &str)
    ensures { Prints W.contents output.old (file_line name.now words.now) output.new }
{
    put_text(output, "polytwkb: ");
    put_text(output, name);
    put_text(output, ": ");
    put_text(output, words);
    put_text(output, "\n");
}

// Puts a text and flushes the output, unless a put was refused. A failure is not reported.
fn put_flushed<W: Write>(output: &mut Output<'_, W>, text: &str)
    ensures { Prints W.contents output.old text.now output.new }
{
    put_text(output, text);
    let _ = output.flush();
}

// Writes a text of at most 2^62 bytes to a device, up to the first write that fails, and flushes
// the device if none fails. A failure is not reported. Takes no memory.
pub(crate) fn print_text<W: Write>(device: &mut Tap<W>, text: &str)
    ensures { length text.now ≤ MAX_BYTES → IsPrinted W.contents device.old text.now device.new }
{
    let mut output = Output::new(device);
    put_flushed(&mut output, text);
}

/// Writes the line that says why a conversion stopped to a device, up to the first write that
/// fails: `polytwkb: `, the cause with its place, and LF. A failure is not reported. Does not flush.
/// Takes no memory.
pub fn print_line<W: Write>(device: &mut Tap<W>, cause: Cause)
    ensures { IsPrinted W.contents device.old (line_of cause) device.new }
{
    print_named_line(device, None, Stop::Cause(cause));
}

// Writes the line that says why a job stopped as `print_line` does, with the name of the file that
// it is about, if there is one.
pub(crate) fn print_named_line<W: Write>(device: &mut Tap<W>, name: Option<&str>, stop: Stop)
    ensures { HasShortName (name_in name.entry)
        → IsPrinted W.contents device.old (named_line (name_in name.entry) stop) device.new }
{
    let mut output = Output::new(device);
    put_line(&mut output, name, stop);
}

// Writes the line of a file that the system refuses with these words, as `print_line` writes one.
pub(crate) fn print_file_line<W: Write>(device: &mut Tap<W>, name: &str, words: &str)
    ensures { length (file_line name.now words.now) ≤ MAX_BYTES
        → IsPrinted W.contents device.old (file_line name.now words.now) device.new }
{
    let mut output = Output::new(device);
    put_file_line(&mut output, name, words);
}
