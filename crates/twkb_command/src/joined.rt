//! The words as `clap` reads them.
ghost use Rattle.std.specs.Prelude.{◌≡◌, ◌++◌, ◌∷◌, [], List, codes, map, string_bytes, is_some, true, false};
ghost use Rattle.std.specs.Prelude.{IfOk, IfSome, OnOk};
ghost use Rattle.clap.specs.Words.{Text};
ghost use Rattle.twkb_command.specs.CommandLine.{words_of};
ghost use Rattle.twkb_command.specs.Joined.{found_word, is_negative, joined, joined_from};

use std::alloc::{AllocError, Global};

// What comes before a word.
#[derive(Clone, Copy, PartialEq, Eq)]
enum Before {
    // Words that are not joined to it.
    Others,
    // `--precision`, which is not yet put.
    Precision,
    // The word `--`, after which nothing is joined.
    End,
}

// The word of `--precision` and a number from -8 to -1.
fn precision_word(word: &str) -> Option<&'static str>
    ensures is { is_some result ≡ is_negative word.now }
    ensures text { IfSome result (λ one. one.now ≡ codes "--precision=" ++ word.now) }
{
    match word {
        "-1" => Some("--precision=-1"),
        "-2" => Some("--precision=-2"),
        "-3" => Some("--precision=-3"),
        "-4" => Some("--precision=-4"),
        "-5" => Some("--precision=-5"),
        "-6" => Some("--precision=-6"),
        "-7" => Some("--precision=-7"),
        "-8" => Some("--precision=-8"),
        _ => None,
    }
}

// A word as `clap` finds it.
fn found_word(word: &str) -> &str
    ensures { result.now ≡ found_word word.now }
{
    if word == "--hex=bare" {
        return "--hex-bare";
    }
    word
}

// Appends a word, unless it is `--precision`, and returns what comes before the next one.
#[tactic(auto, using(crate::proofs::JoinedLemmas::others))]
fn put_other<'a>(words: &mut Vec<&'a str>, word: &'a str) -> Result<Before, AllocError>
    ensures { IfOk result (λ before. (rest : List Text) → words_of words.new.items ++ joined_from before rest
        ≡ words_of words.old.items ++ joined_from Before.Others (word.entry.now ∷ rest)) }
{
    if word == "--precision" {
        return Ok(Before::Precision);
    }
    if word == "--" {
        words.push(word)?;
        return Ok(Before::End);
    }
    words.push(found_word(word))?;
    Ok(Before::Others)
}

// Appends the word of `--precision` and a number after it.
#[tactic(auto, using(crate::proofs::JoinedLemmas::words_push, crate::proofs::JoinedLemmas::after_number))]
fn put_number<'a>(
    words: &mut Vec<&'a str>,
    one: &'a str,
    word: &'a str,
) -> Result<Before, AllocError>
    requires negative { is_negative word.now ≡ true }
    requires one { one.now ≡ codes "--precision=" ++ word.now }
    ensures { IfOk result (λ before. (rest : List Text) → words_of words.new.items ++ joined_from before rest
        ≡ words_of words.old.items ++ joined_from Before.Precision (word.entry.now ∷ rest)) }
{
    words.push(one)?;
    Ok(Before::Others)
}

// Appends the word `--precision`.
#[tactic(auto, using(crate::proofs::JoinedLemmas::words_join))]
fn put_precision(words: &mut Vec<&str>) -> Result<(), AllocError>
    ensures { OnOk result (words_of words.new.items ≡ words_of words.old.items ++ codes "--precision" ∷ []) }
{
    words.push("--precision")?;
    Ok(())
}

// Appends `--precision` and a word after it that is not joined to it.
#[tactic(auto, using(crate::proofs::JoinedLemmas::apart))]
fn put_apart<'a>(words: &mut Vec<&'a str>, word: &'a str) -> Result<Before, AllocError>
    requires { is_negative word.now ≡ false }
    ensures { IfOk result (λ before. (rest : List Text) → words_of words.new.items ++ joined_from before rest
        ≡ words_of words.old.items ++ joined_from Before.Precision (word.entry.now ∷ rest)) }
{
    put_precision(words)?;
    let before = put_other(words, word)?;
    Ok(before)
}

// Appends `--precision` and a word after it, as one if that is a number from -8 to -1.
fn put_after<'a>(words: &mut Vec<&'a str>, word: &'a str) -> Result<Before, AllocError>
    ensures { IfOk result (λ before. (rest : List Text) → words_of words.new.items ++ joined_from before rest
        ≡ words_of words.old.items ++ joined_from Before.Precision (word.entry.now ∷ rest)) }
{
    match precision_word(word) {
        Some(one) => put_number(words, one, word),
        None => put_apart(words, word),
    }
}

// Appends a word after the last one.
#[tactic(auto, using(crate::proofs::JoinedLemmas::words_push))]
fn put_word<'a>(
    words: &mut Vec<&'a str>,
    before: Before,
    word: &'a str,
) -> Result<Before, AllocError>
    ensures { IfOk result (λ next. (rest : List Text) → words_of words.new.items ++ joined_from next rest
        ≡ words_of words.old.items ++ joined_from before (word.entry.now ∷ rest)) }
{
    match before {
        Before::Others => put_other(words, word),
        Before::Precision => put_after(words, word),
        Before::End => {
            words.push(word)?;
            Ok(Before::End)
        }
    }
}

// Appends what is left after the last word.
#[tactic(auto, using(crate::proofs::JoinedLemmas::words_push))]
fn put_end(words: &mut Vec<&str>, before: Before) -> Result<(), AllocError>
    ensures { OnOk result (words_of words.new.items ≡ words_of words.old.items ++ joined_from before []) }
{
    if before == Before::Precision {
        words.push("--precision")?;
    }
    Ok(())
}

/// The words of a command line as `read_words` takes them: a number from -8 to -1 after the word
/// `--precision` is one word with it, since `clap` would take it for an option, and `--hex=bare`,
/// a flag that `clap` would cut at the equals sign, is the word `--hex-bare`. Takes memory for a list
/// of them.
pub fn joined_words<'a>(alloc: Global, words: &'a [String]) -> Result<Vec<&'a str>, AllocError>
    ensures { IfOk result (λ list. words_of list.items ≡ joined (map string_bytes words.entry.now)) }
{
    let mut list = Vec::new(alloc);
    let mut before = Before::Others;
    for word in words {
        before = put_word(&mut list, before, word.as_str())?;
    }
    put_end(&mut list, before)?;
    Ok(list)
}
