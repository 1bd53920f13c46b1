//! The names and the words of a column, as C passes them: each ends with a zero byte.
ghost use Rattle.std.specs.Prelude.{◌≡◌, ◌↔◌, [], IfOk, IsTrue, drop, get_or};
ghost use Rattle.twkb_c.specs.ColumnWords.{IsColumnOf, IsEnded, NamesIds, ended_words, words_of};

use memchr::memchr;
use std::alloc::{AllocError, Global};
use twkb_buffer::Column;

// Whether a text ends with a zero byte.
pub(crate) fn is_ended(text: &[u8]) -> bool
    ensures { IsTrue result ↔ IsEnded text.now }
{
    text.last() == Some(&0)
}

// The words of a text that ends with a zero byte. Takes memory for a list of them.
pub(crate) fn words_in<'a>(alloc: Global, text: &'a [u8]) -> Result<Vec<&'a [u8]>, AllocError>
    requires { IsEnded text.now }
    ensures { IfOk result (λ words. ended_words (words_of words.items) ≡ text.now) }
{
    let mut words = Vec::new(alloc);
    let mut rest = text;
    while let Some(length) = memchr(0, rest) {
        words.push(&rest[..length])?;
        rest = &rest[length + 1..];
    }
    Ok(words)
}

// The word at a place; empty if there are not so many.
fn word_at<'a>(words: &[&'a [u8]], place: usize) -> &'a [u8]
    ensures { result.now ≡ get_or (words_of words.now) place [] }
{
    match words.get(place) {
        Some(word) => *word,
        None => &[],
    }
}

// The name of the column of ids, which is the second word if that is not empty.
fn ids_in<'a>(words: &[&'a [u8]]) -> Option<&'a [u8]>
    ensures { NamesIds (get_or (words_of words.now) 1 []) result }
{
    let ids = word_at(words, 1);
    if ids.is_empty() {
        return None;
    }
    Some(ids)
}

// The words for a missing value: those after the first two.
fn nulls_in<'a>(words: &'a [&'a [u8]]) -> &'a [&'a [u8]]
    ensures { words_of result.now ≡ drop 2 (words_of words.now) }
{
    if words.len() <= 2 {
        return &[];
    }
    &words[2..]
}

// The column that these words name, with this precision and this delimiter.
pub(crate) fn column_of<'a>(words: &'a [&'a [u8]], precision: i8, delimiter: u8) -> Column<'a>
    ensures { IsColumnOf (words_of words.now) precision delimiter result }
{
    Column {
        name: word_at(words, 0),
        ids: ids_in(words),
        precision,
        nulls: nulls_in(words),
        delimiter,
    }
}
