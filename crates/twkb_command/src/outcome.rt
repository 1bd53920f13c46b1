//! Carrying out a request, and answering words that make none, over any devices.
ghost use Rattle.std.specs.Prelude.{◌≡◌, ◌≢◌};
ghost use Rattle.std.specs.Prelude.{◌≤◌, length};
ghost use Rattle.twkb_io.specs.declared.TheConstants.{MAX_BYTES};
ghost use Rattle.twkb_command.specs.CommandLine.{name_in};
ghost use Rattle.twkb_command.specs.Outcome.{CarriesOut, Does, Refuses, file_at};
ghost use Rattle.twkb_command.specs.Printing.{file_line, line_of, no_text_line, IsPrinted};

use crate::exit_code::{DEVICE, DONE, MEMORY, USAGE, stop_status};
use crate::lines::{print_file_line, print_line, print_misuse, print_named_line, print_text};
use crate::refusal::Refusal;
use crate::request::{ColumnWords, Job, Request};
use crate::stop::Stop;
use std::alloc::Global;
use std::io::{ErrorKind, Read, Write};
use twkb_column::pack_column;
use twkb_conversions::{Conversion, convert};
use twkb_convert::{Cause, unpack_collection};
use twkb_hex::{Packing, Unpacking, pack_hex, unpack_hex};
use twkb_io::Tap;
use twkb_rest::unpack_column;
use twkb_tree::Limits;

// The name of the file that a stop is about: the output's if writing failed, the input's if reading
// failed or the input is refused, and none if it is about both, or about memory.
fn file_of_stop<'a>(request: &Request<'a>, stop: &Stop) -> Option<&'a str>
    ensures { name_in result ≡ file_at stop.now request.now }
{
    match stop {
        Stop::Cause(Cause::WriteDevice) => request.output,
        Stop::Cause(Cause::TooLong | Cause::Memory) => None,
        _ => request.input,
    }
}

// Converts all that a reader gives. An `Err` is why that stopped. Takes memory as `convert` does.
fn convert_all<R: Read, W: Write>(
    alloc: Global,
    what: Conversion,
    reader: &mut Tap<R>,
    writer: &mut Tap<W>,
    limits: Limits,
) -> Result<(), Stop>
    ensures { Does (Job.Convert what) limits R.remaining W.contents reader.old writer.old reader.new writer.new result }
{
    match convert(alloc, what, reader, writer, limits) {
        Ok(_) => Ok(()),
        Err(fault) => Err(Stop::Cause(fault.cause)),
    }
}

// Unpacks the stream that a reader gives to one FeatureCollection. An `Err` is why that stopped. Takes
// memory as `unpack_collection` does.
fn collect_all<R: Read, W: Write>(
    alloc: Global,
    reader: &mut Tap<R>,
    writer: &mut Tap<W>,
    limits: Limits,
) -> Result<(), Stop>
    ensures { Does Job.UnpackCollection limits R.remaining W.contents reader.old writer.old reader.new writer.new
        result }
{
    match unpack_collection(alloc, reader, writer, limits) {
        Ok(_) => Ok(()),
        Err(fault) => Err(Stop::Cause(fault.cause)),
    }
}

// Packs a column of the CSV that a reader gives. An `Err` is why that stopped. Takes memory as
// `pack_column` does.
fn pack_csv<R: Read, W: Write>(
    alloc: Global,
    words: &ColumnWords<'_>,
    reader: &mut Tap<R>,
    writer: &mut Tap<W>,
    limits: Limits,
) -> Result<(), Stop>
    ensures { Does (Job.PackColumn words.now) limits R.remaining W.contents reader.old writer.old reader.new writer.new
        result }
{
    match pack_column(alloc, reader, writer, limits, words.style, words.column()) {
        Ok(_) => Ok(()),
        Err(fault) => Err(Stop::of_column(fault.cause)),
    }
}

// Writes the CSV that a reader gives again, with digits of its column, bare or after `\x`. An `Err` is
// why that stopped. Takes memory as `pack_hex` does.
fn write_digits<R: Read, W: Write>(
    alloc: Global,
    words: &ColumnWords<'_>,
    is_bare: bool,
    reader: &mut Tap<R>,
    writer: &mut Tap<W>,
    limits: Limits,
) -> Result<(), Stop>
    ensures { Does (Job.PackHex words.now is_bare) limits R.remaining W.contents reader.old writer.old reader.new
        writer.new result }
{
    let packing = Packing {
        column: words.column(),
        style: words.style,
        is_bare,
    };
    match pack_hex(alloc, reader, writer, &packing, &limits) {
        Ok(_) => Ok(()),
        Err(fault) => Err(Stop::of_hex(fault.cause)),
    }
}

// Unpacks the stream that a reader gives to a column of a CSV. An `Err` is why that stopped. Takes
// memory as `unpack_column` does.
fn unpack_csv<R: Read, W: Write>(
    alloc: Global,
    name: &str,
    delimiter: u8,
    reader: &mut Tap<R>,
    writer: &mut Tap<W>,
    limits: Limits,
) -> Result<(), Stop>
    ensures { Does (Job.UnpackColumn name.entry delimiter) limits R.remaining W.contents reader.old writer.old
        reader.new writer.new result }
{
    match unpack_column(alloc, reader, writer, limits, name.as_bytes(), delimiter) {
        Ok(_) => Ok(()),
        Err(fault) => Err(Stop::of_lines(fault.cause)),
    }
}

// Writes the CSV that a reader gives again, with polylines in place of the digits of a column. An `Err`
// is why that stopped. Takes memory as `unpack_hex` does.
fn write_polylines<R: Read, W: Write>(
    alloc: Global,
    name: &str,
    delimiter: u8,
    reader: &mut Tap<R>,
    writer: &mut Tap<W>,
    limits: Limits,
) -> Result<(), Stop>
    ensures { Does (Job.UnpackHex name.entry delimiter) limits R.remaining W.contents reader.old writer.old
        reader.new writer.new result }
{
    let unpacking = Unpacking {
        name: name.as_bytes(),
        delimiter,
    };
    match unpack_hex(alloc, reader, writer, &unpacking, &limits) {
        Ok(_) => Ok(()),
        Err(fault) => Err(Stop::of_hex(fault.cause)),
    }
}

// Does a job over these devices. An `Err` is why it stopped.
fn do_job<R: Read, W: Write>(
    alloc: Global,
    job: &Job<'_>,
    reader: &mut Tap<R>,
    writer: &mut Tap<W>,
    limits: Limits,
) -> Result<(), Stop>
    ensures { Does job.now limits R.remaining W.contents reader.old writer.old reader.new writer.new result }
{
    match job {
        Job::Convert(what) => convert_all(alloc, *what, reader, writer, limits),
        Job::UnpackCollection => collect_all(alloc, reader, writer, limits),
        Job::PackColumn(words) => pack_csv(alloc, words, reader, writer, limits),
        Job::PackHex(words, is_bare) => {
            write_digits(alloc, words, *is_bare, reader, writer, limits)
        }
        Job::UnpackColumn(name, delimiter) => {
            unpack_csv(alloc, *name, *delimiter, reader, writer, limits)
        }
        Job::UnpackHex(name, delimiter) => {
            write_polylines(alloc, *name, *delimiter, reader, writer, limits)
        }
    }
}

/// Carries out a request over these devices, and returns the exit status: 0 if all was converted, 1
/// if the input is refused, or the input or the output is too long, 3 if a device failed, 4 if
/// memory was refused. If the job stopped, the line that says why is written to `errors`, with the
/// name that the request has for the file that it is about; a failure there changes nothing else.
/// Opens no file. Takes memory as `convert` does, or as `unpack_collection`, `pack_column`,
/// `unpack_column`, `pack_hex` and `unpack_hex` do.
pub fn carry_out<R: Read, W: Write, E: Write>(
    alloc: Global,
    request: &Request<'_>,
    reader: &mut Tap<R>,
    writer: &mut Tap<W>,
    errors: &mut Tap<E>,
) -> u8
    ensures { CarriesOut R.remaining W.contents E.contents request.now reader.old writer.old errors.old
        reader.new writer.new errors.new result }
{
    match do_job(alloc, &request.job, reader, writer, request.limits) {
        Ok(_) => DONE,
        Err(stop) => {
            print_named_line(errors, file_of_stop(request, &stop), stop);
            stop_status(&stop)
        }
    }
}

// Prints the text of help or of the version, and returns the exit status 0, even if a write fails.
fn print_requested<W: Write>(writer: &mut Tap<W>, text: &str) -> u8
    ensures { result ≡ 0 }
{
    print_text(writer, text);
    DONE
}

/// Answers words that ask for no conversion: help and the version go to `writer`, everything else to
/// `errors`. Returns the exit status: 0 for help and the version, 2 if the words are refused, 4 if
/// memory was refused; a write that fails changes none of them. Takes no memory.
pub fn refuse<W: Write, E: Write>(refusal: &Refusal, writer: &mut Tap<W>, errors: &mut Tap<E>) -> u8
    ensures { Refuses E.contents refusal.now writer.old errors.old writer.new errors.new result }
{
    match refusal {
        Refusal::Memory => report_no_memory(errors),
        Refusal::Help(text) => print_requested(writer, text),
        Refusal::Version(text) => print_requested(writer, text),
        Refusal::Usage(text) => {
            print_text(errors, text);
            USAGE
        }
        Refusal::Misused(misuse) => {
            print_misuse(errors, *misuse);
            USAGE
        }
    }
}

/// Prints to `errors` that memory was refused, and returns the exit status 4. Takes no memory.
pub fn report_no_memory<E: Write>(errors: &mut Tap<E>) -> u8
    ensures status { result ≡ 4 }
    ensures line { IsPrinted E.contents errors.old (line_of Cause.Memory) errors.new }
{
    print_line(errors, Cause::Memory);
    MEMORY
}

/// Prints to `errors` that the system refuses a file with this name, in these words of the system,
/// and returns the exit status 3. Takes no memory.
pub fn report_file_fault<E: Write>(errors: &mut Tap<E>, name: &str, words: &str) -> u8
    ensures status { result ≡ 3 }
    ensures line { length (file_line name.now words.now) ≤ MAX_BYTES
        → IsPrinted E.contents errors.old (file_line name.now words.now) errors.new }
{
    print_file_line(errors, name, words);
    DEVICE
}

/// Prints to `errors` why the words of the command line could not be read, and returns the exit
/// status: for `OutOfMemory` that memory was refused, and 4; for any other kind that a word is not
/// UTF-8, and 2. Takes no memory.
pub fn report_unread_words<E: Write>(errors: &mut Tap<E>, kind: ErrorKind) -> u8
    ensures memory { kind ≡ ErrorKind.OutOfMemory → (result ≡ 4)
        × IsPrinted E.contents errors.old (line_of Cause.Memory) errors.new }
    ensures other { kind ≢ ErrorKind.OutOfMemory → (result ≡ 2)
        × IsPrinted E.contents errors.old no_text_line errors.new }
{
    if kind == ErrorKind::OutOfMemory {
        return report_no_memory(errors);
    }
    print_text(errors, "polytwkb: a word is not UTF-8\n");
    USAGE
}
