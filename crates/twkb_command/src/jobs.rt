//! The job that the words of a subcommand ask for.
ghost use Rattle.std.specs.Prelude.{◌≡◌, None, Some, codes, is_some, true, IfOk};
ghost use Rattle.clap.specs.Words.{first_of, found_of, one_of, rows_of};
ghost use Rattle.twkb_command.specs.CommandLine.{GivesPrecision, IsColumn, IsJob, IsPackJob, IsProper};
ghost use Rattle.twkb_command.specs.CommandLine.{IsSubcommand, IsUnpackJob};
ghost use Rattle.twkb_command.specs.Misuses.{delimiter_given, has};

use crate::given::{is_given, nulls_of, precision_of, style_of, value_of};
use crate::misuse::Word;
use crate::misused::{delimiter_given, has};
use crate::request::{ColumnWords, Job};
use clap::ArgMatches;
use std::alloc::{AllocError, Global};
use twkb_conversions::Conversion;

// The byte between two fields that the option `--delimiter` gives, which must be one.
fn delimiter_in(matches: &ArgMatches<'_>) -> u8
    requires { is_some (delimiter_given (first_of (codes "delimiter") (rows_of (found_of matches.now)))) ≡ true }
    ensures { delimiter_given (first_of (codes "delimiter") (rows_of (found_of matches.now))) ≡ Some result }
{
    match delimiter_given(value_of(matches, "delimiter")) {
        Some(byte) => byte,
        None => unreachable!(),
    }
}

// What is asked for of the column with this name. Takes memory for the words of `--null`.
fn column_of<'a>(
    alloc: Global,
    name: &'a str,
    matches: &ArgMatches<'a>,
) -> Result<ColumnWords<'a>, AllocError>
    requires precision { GivesPrecision (one_of (codes "precision") (rows_of (found_of matches.now))) }
    requires delimiter { is_some (delimiter_given (first_of (codes "delimiter") (rows_of (found_of matches.now))))
        ≡ true }
    requires named { Some name.now ≡ first_of (codes "column") (rows_of (found_of matches.now)) }
    ensures { IfOk result (IsColumn (rows_of (found_of matches.now))) }
{
    let nulls = nulls_of(alloc, matches)?;
    Ok(ColumnWords {
        style: style_of(matches),
        name,
        precision: precision_of(matches),
        ids: value_of(matches, "ids"),
        nulls,
        delimiter: delimiter_in(matches),
    })
}

// The job of `pack` for a column: its digits if a flag asks for them, else a stream.
fn column_job<'a>(words: ColumnWords<'a>, matches: &ArgMatches<'a>) -> Job<'a>
    requires { IsColumn (rows_of (found_of matches.now)) words }
    ensures { IsPackJob (rows_of (found_of matches.now)) result }
{
    if has(matches, Word::HexBare) {
        return Job::PackHex(words, true);
    }
    if has(matches, Word::Hex) {
        return Job::PackHex(words, false);
    }
    Job::PackColumn(words)
}

// The job of `pack`: a column of a CSV if one is named, else a table.
fn pack_job<'a>(alloc: Global, matches: &ArgMatches<'a>) -> Result<Job<'a>, AllocError>
    requires precision { is_some (first_of (codes "column") (rows_of (found_of matches.now))) ≡ true
        → GivesPrecision (one_of (codes "precision") (rows_of (found_of matches.now))) }
    requires delimiter { is_some (delimiter_given (first_of (codes "delimiter") (rows_of (found_of matches.now))))
        ≡ true }
    ensures { IfOk result (IsPackJob (rows_of (found_of matches.now))) }
{
    let Some(name) = value_of(matches, "column") else {
        return Ok(Job::Convert(Conversion::Pack(style_of(matches))));
    };
    let words = column_of(alloc, name, matches)?;
    Ok(column_job(words, matches))
}

// The job of `unpack` for the column with this name: a CSV with digits in it if a flag says so, else
// a stream.
fn polylines_job<'a>(name: &'a str, matches: &ArgMatches<'a>) -> Job<'a>
    requires named { Some name.now ≡ first_of (codes "column") (rows_of (found_of matches.now)) }
    requires delimiter { is_some (delimiter_given (first_of (codes "delimiter") (rows_of (found_of matches.now))))
        ≡ true }
    ensures { IsUnpackJob (rows_of (found_of matches.now)) result }
{
    let delimiter = delimiter_in(matches);
    if has(matches, Word::Hex) || has(matches, Word::HexBare) {
        return Job::UnpackHex(name, delimiter);
    }
    Job::UnpackColumn(name, delimiter)
}

// The job of `unpack` to GeoJSON: a collection if that flag is given, else lines.
fn geojson_job<'a>(matches: &ArgMatches<'a>) -> Job<'a>
    requires column { first_of (codes "column") (rows_of (found_of matches.now)) ≡ None }
    requires geojson { has (rows_of (found_of matches.now)) Word.Geojson ≡ true }
    ensures { IsUnpackJob (rows_of (found_of matches.now)) result }
{
    if is_given(matches, "collection") {
        return Job::UnpackCollection;
    }
    Job::Convert(Conversion::Geojson)
}

// The job of `unpack`: a column of a CSV if one is named, else GeoJSON if that flag is given, else a
// table.
fn unpack_job<'a>(matches: &ArgMatches<'a>) -> Job<'a>
    requires { is_some (delimiter_given (first_of (codes "delimiter") (rows_of (found_of matches.now)))) ≡ true }
    ensures { IsUnpackJob (rows_of (found_of matches.now)) result }
{
    if let Some(name) = value_of(matches, "column") {
        return polylines_job(name, matches);
    }
    if is_given(matches, "geojson") {
        return geojson_job(matches);
    }
    Job::Convert(Conversion::Unpack)
}

/// The job of the subcommand with this name, which must be `pack`, `unpack` or `show`. Takes memory
/// for the words of `--null`.
pub(crate) fn job_of<'a>(
    alloc: Global,
    name: &str,
    matches: &ArgMatches<'a>,
) -> Result<Job<'a>, AllocError>
    requires named { IsSubcommand name.now }
    requires proper { IsProper name.now (rows_of (found_of matches.now)) }
    ensures { IfOk result (IsJob name.now (rows_of (found_of matches.now))) }
{
    match name {
        "pack" => pack_job(alloc, matches),
        "unpack" => Ok(unpack_job(matches)),
        "show" => Ok(Job::Convert(Conversion::Show)),
        _ => unreachable!(),
    }
}
