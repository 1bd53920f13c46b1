//! Reading the words of a command line as a request.
ghost use Rattle.std.specs.Prelude.{◌≡◌, [], ◌∷◌, codes, negsuc, pos, IfOk, IfErr, None, OnOk, Some};
ghost use Rattle.clap.specs.Words.{App, FailsBy, IsSignedIn, Text, fault_of, found_of, kind_of, one_of, rows_of};
ghost use Rattle.clap.specs.Words.{subcommand_of, subcommand_rows_of};
ghost use Rattle.twkb_command.specs.Arguments.{IsCommandLine, command_line};
ghost use Rattle.twkb_command.specs.CommandLine.{AsksFor, GivesNest, HasNest, HasPrecision, IsAskedBy, IsMisuse};
ghost use Rattle.twkb_command.specs.CommandLine.{IsRefusal, IsRefusalAmong, IsSubcommand, Makes, NamesConversion};
ghost use Rattle.twkb_command.specs.CommandLine.{Reads, words_of};
ghost use Rattle.twkb_command.specs.Misuses.{misuse_in, misuse_of};

use crate::command_line::command;
use crate::given::{input_of, limits_of, output_of};
use crate::jobs::job_of;
use crate::misused::misuse_in;
use crate::refusal::Refusal;
use crate::request::Request;
use clap::error::ErrorKind;
use clap::{ArgMatches, Error};
use std::alloc::Global;

// The names of the styles.
static STYLES: [&str; 2] = ["full", "plain"];

// What `clap` finds in the words of the command line, if the styles have these names. An `Err` is
// why `clap` refuses the words, that help or the version is asked for, or that memory was refused.
// Takes memory to read them.
fn matches_of<'a>(
    alloc: Global,
    styles: &'a [&'a str],
    words: &'a [&'a str],
) -> Result<ArgMatches<'a>, Error>
    ensures ok { IfOk result (λ m. subcommand_rows_of m ≡ subcommand_of (command_line styles.entry)
        (words_of words.entry.now)) }
    ensures named { IfOk result (λ m. NamesConversion (subcommand_rows_of m)) }
    ensures nest { IfOk result (λ m. HasNest (subcommand_rows_of m)) }
    ensures precision { IfOk result (λ m. HasPrecision (subcommand_rows_of m)) }
    ensures kinds { FailsBy (fault_of (command_line styles.entry) (words_of words.entry.now)) result }
{
    command(alloc, styles)?.try_get_matches_from(words)
}

// The request of the subcommand with this name, which must be `pack`, `unpack` or `show`, if its
// options have no misuse. Takes memory for the words of `--null`; `Memory` if that is refused.
fn proper_request<'a>(
    alloc: Global,
    name: &str,
    matches: &ArgMatches<'a>,
) -> Result<Request<'a>, Refusal>
    requires named { IsSubcommand name.now }
    requires nest { GivesNest (one_of (codes "max-nest") (rows_of (found_of matches.now))) }
    requires precision { (digits : Text) → one_of (codes "precision") (rows_of (found_of matches.now)) ≡ Some digits
        → IsSignedIn (negsuc 7) (pos 7) digits }
    requires proper { misuse_in name.now (rows_of (found_of matches.now)) ≡ None }
    ensures asked { IfOk result (Makes name.now (rows_of (found_of matches.now))) }
    ensures refused { IfErr result (IsMisuse (misuse_in name.now (rows_of (found_of matches.now)))) }
{
    match job_of(alloc, name, matches) {
        Ok(job) => Ok(Request {
            job,
            limits: limits_of(matches),
            input: input_of(matches),
            output: output_of(matches),
        }),
        Err(_) => Err(Refusal::Memory),
    }
}

// The request of the subcommand with this name, which must be `pack`, `unpack` or `show`, or its
// misuse. Takes memory as `proper_request` does.
fn subcommand_request<'a>(
    alloc: Global,
    name: &str,
    matches: &ArgMatches<'a>,
) -> Result<Request<'a>, Refusal>
    requires named { IsSubcommand name.now }
    requires nest { GivesNest (one_of (codes "max-nest") (rows_of (found_of matches.now))) }
    requires precision { (digits : Text) → one_of (codes "precision") (rows_of (found_of matches.now)) ≡ Some digits
        → IsSignedIn (negsuc 7) (pos 7) digits }
    ensures asked { IfOk result (Makes name.now (rows_of (found_of matches.now))) }
    ensures proper { OnOk result (misuse_in name.now (rows_of (found_of matches.now)) ≡ None) }
    ensures refused { IfErr result (IsMisuse (misuse_in name.now (rows_of (found_of matches.now)))) }
{
    match misuse_in(name, matches) {
        Some(misuse) => Err(Refusal::Misused(misuse)),
        None => proper_request(alloc, name, matches),
    }
}

// The request that matches of `clap` make: the job of their subcommand, which must be `pack`,
// `unpack` or `show`, the limits, whose nesting must be 0 to 32, and the files; or their misuse.
fn request_of<'a>(alloc: Global, matches: &ArgMatches<'a>) -> Result<Request<'a>, Refusal>
    requires named { NamesConversion (subcommand_rows_of matches.now) }
    requires nest { HasNest (subcommand_rows_of matches.now) }
    requires precision { HasPrecision (subcommand_rows_of matches.now) }
    ensures asked { IfOk result (IsAskedBy (subcommand_rows_of matches.now)) }
    ensures proper { OnOk result (misuse_of (subcommand_rows_of matches.now) ≡ None) }
    ensures refused { IfErr result (IsMisuse (misuse_of (subcommand_rows_of matches.now))) }
{
    match matches.subcommand() {
        Some((name, inner)) => subcommand_request(alloc, name, inner),
        None => unreachable!(),
    }
}

// The refusal for an error of `clap`, with the text that `clap` prints for it. Takes memory for the
// text; `Memory` if that is refused, or if the error is that memory was refused.
fn refusal_of(alloc: Global, error: &Error) -> Refusal
    ensures memory { kind_of error.now ≡ ErrorKind.OutOfMemory → result ≡ Refusal.Memory }
    ensures kind { IsRefusal (kind_of error.now) result }
{
    let kind = error.kind();
    if kind == ErrorKind::OutOfMemory {
        return Refusal::Memory;
    }
    let Ok(text) = format!(in alloc; "{error}") else {
        return Refusal::Memory;
    };
    match kind {
        ErrorKind::DisplayHelp => Refusal::Help(text),
        ErrorKind::DisplayVersion => Refusal::Version(text),
        _ => Refusal::Usage(text),
    }
}

// Reads the words of a command line as `read_words` does, if the styles have these names.
fn read_styled_words<'a>(
    alloc: Global,
    styles: &'a [&'a str],
    words: &'a [&'a str],
) -> Result<Request<'a>, Refusal>
    ensures asked { IfOk result (AsksFor (command_line styles.entry) (words_of words.entry.now)) }
    ensures fits { OnOk result (fault_of (command_line styles.entry) (words_of words.entry.now) ≡ []) }
    ensures proper { OnOk result
        (misuse_of (subcommand_of (command_line styles.entry) (words_of words.entry.now)) ≡ None) }
    ensures refused { IfErr result (IsRefusalAmong
        (fault_of (command_line styles.entry) (words_of words.entry.now))
        (misuse_of (subcommand_of (command_line styles.entry) (words_of words.entry.now)))) }
{
    match matches_of(alloc, styles, words) {
        Ok(matches) => request_of(alloc, &matches),
        Err(error) => Err(refusal_of(alloc, &error)),
    }
}

// The names of the styles, at the place in memory where a command line has them.
pub(crate) fn styles() -> &'static [&'static str]
    ensures { words_of result.now ≡ codes "full" ∷ codes "plain" ∷ [] }
{
    STYLES.as_slice()
}

/// Reads the words of a command line as `joined_words` gives them, the first of which is the
/// program's name, and returns the request that they make; its names are in the words. An `Err` is
/// why they make none, such as that help is asked for. Takes memory to read them, for a list of the
/// words of `--null`, and for the text of a refusal.
pub fn read_words<'a>(alloc: Global, words: &'a [&'a str]) -> Result<Request<'a>, Refusal>
    ensures { (line : App) × IsCommandLine line × Reads line (words_of words.entry.now) result }
{
    read_styled_words(alloc, STYLES.as_slice(), words)
}
