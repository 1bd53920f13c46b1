//! What the words of a subcommand give: the values of its options, its flags and its files.
ghost use Rattle.std.specs.Prelude.{◌≡◌, codes, map, unwrap_or, IfNone, IfOk, IfSome, [], Some};
ghost use Rattle.clap.specs.Words.{all_of, first_of, found_of, one_of, one_text, rows_of};
ghost use Rattle.twkb_command.specs.CommandLine.{AreLimits, GivesNest, GivesNoNest, IsStyle, file_of};
ghost use Rattle.twkb_command.specs.CommandLine.{IsPrecisionOf, GivesPrecision, GivesNoPrecision, name_in, words_of};
ghost use Rattle.twkb_command.specs.Misuses.{flag_of};

use crate::request::{nested_limits, style_named};
use clap::ArgMatches;
use std::alloc::{AllocError, Global};
use twkb_convert::Style;
use twkb_tree::Limits;

/// The first value of an option.
pub(crate) fn value_of<'a>(matches: &ArgMatches<'a>, id: &str) -> Option<&'a str>
    ensures { name_in result ≡ first_of id.now (rows_of (found_of matches.now)) }
{
    matches.get_str(id)
}

/// Whether this flag is given.
pub(crate) fn is_given(matches: &ArgMatches<'_>, flag: &str) -> bool
    ensures { result ≡ flag_of (first_of flag.now (rows_of (found_of matches.now))) }
{
    match value_of(matches, flag) {
        Some(value) => value == "true",
        None => false,
    }
}

// The standard limits, with the nesting that the option `--max-nest` has, if it is there; `None` if
// that is no number from 0 to 32.
fn given_limits(matches: &ArgMatches<'_>) -> Option<Limits>
    ensures some { IfSome result (AreLimits (one_text (found_of matches.now) (codes "max-nest"))) }
    ensures none { IfNone result (GivesNoNest (one_text (found_of matches.now) (codes "max-nest"))) }
{
    match matches.try_get_one::<u32>("max-nest") {
        Ok(Some(nest)) => nested_limits(nest),
        Ok(None) => Some(Limits::standard()),
        Err(_) => None,
    }
}

// The limits of `given_limits`, which must be there.
fn nest_limits(matches: &ArgMatches<'_>) -> Limits
    requires { GivesNest (one_text (found_of matches.now) (codes "max-nest")) }
    ensures { AreLimits (one_text (found_of matches.now) (codes "max-nest")) result }
{
    match given_limits(matches) {
        Some(limits) => limits,
        None => unreachable!(),
    }
}

/// The standard limits, with the nesting that the option `--max-nest` has, if it is there; it must
/// be a number from 0 to 32.
pub(crate) fn limits_of(matches: &ArgMatches<'_>) -> Limits
    requires { GivesNest (one_of (codes "max-nest") (rows_of (found_of matches.now))) }
    ensures { AreLimits (one_of (codes "max-nest") (rows_of (found_of matches.now))) result }
{
    nest_limits(matches)
}

// The number that the option `--precision` has; `None` if that is none from -8 to 7.
fn given_precision(matches: &ArgMatches<'_>) -> Option<i8>
    ensures some { IfSome result (IsPrecisionOf (one_text (found_of matches.now) (codes "precision"))) }
    ensures none { IfNone result (GivesNoPrecision (one_text (found_of matches.now) (codes "precision"))) }
{
    match matches.try_get_one::<i8>("precision") {
        Ok(Some(precision)) => Some(precision),
        Ok(None) => None,
        Err(_) => None,
    }
}

// The number of `given_precision`, which must be there.
fn number_of(matches: &ArgMatches<'_>) -> i8
    requires { GivesPrecision (one_text (found_of matches.now) (codes "precision")) }
    ensures { IsPrecisionOf (one_text (found_of matches.now) (codes "precision")) result }
{
    match given_precision(matches) {
        Some(precision) => precision,
        None => unreachable!(),
    }
}

/// The number that the option `--precision` has, which must be one from -8 to 7.
pub(crate) fn precision_of(matches: &ArgMatches<'_>) -> i8
    requires { GivesPrecision (one_of (codes "precision") (rows_of (found_of matches.now))) }
    ensures { IsPrecisionOf (one_of (codes "precision") (rows_of (found_of matches.now))) result }
{
    number_of(matches)
}

// The bytes of words, in their order. Takes memory for a list of them.
fn bytes_of_words<'a>(alloc: Global, words: &[&'a str]) -> Result<Vec<&'a [u8]>, AllocError>
    ensures { IfOk result (λ list. words_of list.items ≡ words_of words.now) }
{
    let mut list = Vec::new(alloc);
    for word in words {
        list.push(word.as_bytes())?;
    }
    Ok(list)
}

/// The words that the option `--null` has, in their order. Takes memory for a list of them.
pub(crate) fn nulls_of<'a>(
    alloc: Global,
    matches: &ArgMatches<'a>,
) -> Result<Vec<&'a [u8]>, AllocError>
    ensures { IfOk result (λ nulls. words_of nulls.items
        ≡ unwrap_or (all_of (codes "null") (rows_of (found_of matches.now))) []) }
{
    match matches.get_strs("null") {
        Some(words) => bytes_of_words(alloc, words),
        None => Ok(Vec::new(alloc)),
    }
}

/// The style that the option `--style` has: plain for `plain`, else full.
pub(crate) fn style_of(matches: &ArgMatches<'_>) -> Style
    ensures { IsStyle (first_of (codes "style") (rows_of (found_of matches.now))) result }
{
    match value_of(matches, "style") {
        Some(name) => style_named(name),
        None => Style::Full,
    }
}

// The file that a word names; `None` if there is no word, or if it is `-`.
fn file_named<'a>(word: Option<&'a str>) -> Option<&'a str>
    ensures { name_in result ≡ file_of (name_in word.entry) }
{
    match word {
        Some("-") => None,
        _ => word,
    }
}

/// The file to read.
pub(crate) fn input_of<'a>(matches: &ArgMatches<'a>) -> Option<&'a str>
    ensures { name_in result ≡ file_of (first_of (codes "file") (rows_of (found_of matches.now))) }
{
    file_named(value_of(matches, "file"))
}

/// The file to write.
pub(crate) fn output_of<'a>(matches: &ArgMatches<'a>) -> Option<&'a str>
    ensures { name_in result ≡ file_of (first_of (codes "output") (rows_of (found_of matches.now))) }
{
    file_named(value_of(matches, "output"))
}
