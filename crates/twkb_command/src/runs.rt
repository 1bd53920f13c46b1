//! A run of the command.
ghost use Rattle.std.specs.Prelude.{map, string_bytes};
ghost use Rattle.clap.specs.Words.{App};
ghost use Rattle.twkb_command.specs.Arguments.{IsCommandLine};
ghost use Rattle.twkb_command.specs.CommandLine.{words_of};
ghost use Rattle.twkb_command.specs.Joined.{joined};
ghost use Rattle.twkb_command.specs.Outcome.{Runs};

use crate::joined::joined_words;
use crate::outcome::{carry_out, refuse, report_no_memory};
use crate::words::{read_words, styles};
use std::alloc::Global;
use std::io::{Read, Write};
use twkb_io::Tap;

// Runs the command as `run` does, with words as `joined_words` gives them.
fn run_joined<R: Read, W: Write, E: Write>(
    alloc: Global,
    words: &[&str],
    reader: &mut Tap<R>,
    writer: &mut Tap<W>,
    errors: &mut Tap<E>,
) -> u8
    ensures { (line : App) × IsCommandLine line
        × Runs R.remaining W.contents E.contents line (words_of words.now) reader.old writer.old
        errors.old reader.new writer.new errors.new result }
{
    match read_words(alloc, words) {
        Ok(request) => carry_out(alloc, &request, reader, writer, errors),
        Err(refusal) => refuse(&refusal, writer, errors),
    }
}

/// Runs the command with its words, the first of which is the program's name, and returns the exit
/// status: 0 if all was converted, or if help or the version was asked for, which is written to
/// `writer`, 1 if the input is refused, or the input or the output is too long, 2 if the words are
/// refused, 3 if a device failed, 4 if memory was refused. If it is not 0, the reason is written to
/// `errors`. A failure to write that, help or the version changes nothing else. Takes memory as
/// `read_words` and `twkb_conversions::convert` do.
pub fn run<R: Read, W: Write, E: Write>(
    alloc: Global,
    words: &[String],
    reader: &mut Tap<R>,
    writer: &mut Tap<W>,
    errors: &mut Tap<E>,
) -> u8
    ensures { (line : App) × IsCommandLine line
        × Runs R.remaining W.contents E.contents line (joined (map string_bytes words.now))
        reader.old writer.old errors.old reader.new writer.new errors.new result }
{
    // where a command line has the names of its styles
    let _names = styles();
    match joined_words(alloc, words) {
        Ok(joined) => run_joined(alloc, &joined, reader, writer, errors),
        Err(_) => report_no_memory(errors),
    }
}
