//! Misuses in the words of a subcommand.
ghost use Rattle.std.specs.Prelude.{◌≡◌, codes};
ghost use Rattle.clap.specs.Words.{first_of, found_of, rows_of};
ghost use Rattle.twkb_command.specs.CommandLine.{name_in};
ghost use Rattle.twkb_command.specs.Misuses.{clash, column_lacks, delimiter_given, delimiter_misuse, delimiter_of};
ghost use Rattle.twkb_command.specs.Misuses.{digits_clash, has, is_delimiter};
ghost use Rattle.twkb_command.specs.Misuses.{lack, misuse_in, one_delimiter, pack_misuse, unpack_misuse};

use crate::given::{is_given, value_of};
use crate::misuse::{Misuse, Word};
use clap::ArgMatches;

/// Whether an option has a value, or a flag is given.
pub(crate) fn has(matches: &ArgMatches<'_>, word: Word) -> bool
    ensures { result ≡ has (rows_of (found_of matches.now)) word }
{
    if word.is_flag() {
        is_given(matches, word.id())
    } else {
        value_of(matches, word.id()).is_some()
    }
}

// The misuse of the first option without the second, if that is one.
fn lack(matches: &ArgMatches<'_>, word: Word, other: Word) -> Option<Misuse>
    ensures { result ≡ lack (rows_of (found_of matches.now)) word other }
{
    if has(matches, word) && !has(matches, other) {
        return Some(Misuse::Without(word, other));
    }
    None
}

// The misuse of two options that exclude each other, if both are given.
fn clash(matches: &ArgMatches<'_>, word: Word, other: Word) -> Option<Misuse>
    ensures { result ≡ clash (rows_of (found_of matches.now)) word other }
{
    if has(matches, word) && has(matches, other) {
        return Some(Misuse::With(word, other));
    }
    None
}

// Whether this byte may be between two fields.
fn is_delimiter(byte: u8) -> bool
    ensures { result ≡ is_delimiter byte }
{
    byte < 128 && !(byte == b'"' || byte == b'\r' || byte == b'\n')
}

// The one byte of a text, if it may be between two fields.
fn one_delimiter(text: &str) -> Option<u8>
    ensures { result ≡ one_delimiter text.now }
{
    let bytes = text.as_bytes();
    if bytes.len() != 1 || !is_delimiter(bytes[0]) {
        return None;
    }
    Some(bytes[0])
}

// The byte that a value of `--delimiter` names.
fn delimiter_of(text: &str) -> Option<u8>
    ensures { result ≡ delimiter_of text.now }
{
    if text == "tab" || text == "\\t" {
        return Some(b'\t');
    }
    one_delimiter(text)
}

/// The byte between two fields for a value of `--delimiter`: a comma if there is none, and `None`
/// if the value names no delimiter.
pub(crate) fn delimiter_given(value: Option<&str>) -> Option<u8>
    ensures { result ≡ delimiter_given (name_in value.entry) }
{
    match value {
        Some(text) => delimiter_of(text),
        None => Some(b','),
    }
}

// The misuse of a delimiter that is none.
fn delimiter_misuse(matches: &ArgMatches<'_>) -> Option<Misuse>
    ensures { result ≡ delimiter_misuse (first_of (codes "delimiter") (rows_of (found_of matches.now))) }
{
    match delimiter_given(value_of(matches, "delimiter")) {
        Some(_) => None,
        None => Some(Misuse::NoDelimiter),
    }
}

// The first misuse of an option that needs `--column`.
fn column_lacks(matches: &ArgMatches<'_>) -> Option<Misuse>
    ensures { result ≡ column_lacks (rows_of (found_of matches.now)) }
{
    let precision = lack(matches, Word::Precision, Word::Column);
    let null = lack(matches, Word::Null, Word::Column);
    let delimiter = lack(matches, Word::Delimiter, Word::Column);
    let ids = lack(matches, Word::Ids, Word::Column);
    let hex = lack(matches, Word::Hex, Word::Column);
    let bare = lack(matches, Word::HexBare, Word::Column);
    precision.or(null.or(delimiter.or(ids.or(hex.or(bare)))))
}

// The first misuse of a flag about digits beside another one or a column of ids.
fn digits_clash(matches: &ArgMatches<'_>) -> Option<Misuse>
    ensures { result ≡ digits_clash (rows_of (found_of matches.now)) }
{
    let twice = clash(matches, Word::Hex, Word::HexBare);
    let hex = clash(matches, Word::Hex, Word::Ids);
    let bare = clash(matches, Word::HexBare, Word::Ids);
    twice.or(hex.or(bare))
}

// The first misuse in the words of `pack`.
fn pack_misuse(matches: &ArgMatches<'_>) -> Option<Misuse>
    ensures { result ≡ pack_misuse (rows_of (found_of matches.now)) }
{
    let needs = column_lacks(matches);
    let column = lack(matches, Word::Column, Word::Precision);
    let digits = digits_clash(matches);
    let value = delimiter_misuse(matches);
    needs.or(column.or(digits.or(value)))
}

// The first misuse in the words of `unpack`.
fn unpack_misuse(matches: &ArgMatches<'_>) -> Option<Misuse>
    ensures { result ≡ unpack_misuse (rows_of (found_of matches.now)) }
{
    let delimiter = lack(matches, Word::Delimiter, Word::Column);
    let hex = lack(matches, Word::Hex, Word::Column);
    let bare = lack(matches, Word::HexBare, Word::Column);
    let collection = lack(matches, Word::Collection, Word::Geojson);
    let column = clash(matches, Word::Column, Word::Geojson);
    let digits = clash(matches, Word::Hex, Word::HexBare);
    let value = delimiter_misuse(matches);
    delimiter.or(hex.or(bare.or(collection.or(column.or(digits.or(value))))))
}

/// The first misuse in the words of the subcommand with this name.
pub(crate) fn misuse_in(name: &str, matches: &ArgMatches<'_>) -> Option<Misuse>
    ensures { result ≡ misuse_in name.now (rows_of (found_of matches.now)) }
{
    match name {
        "pack" => pack_misuse(matches),
        "unpack" => unpack_misuse(matches),
        _ => None,
    }
}
