//! The options of a conversion, as C passes them: words of 32 bits. Words that are left out are 0.
ghost use Rattle.std.specs.Prelude.{◌≡◌, ◌↔◌, All, IsTrue, drop};
ghost use Rattle.twkb_c.specs.Arguments.{AreOptionsOf, option_at, option_limits};

use crate::arguments::BufferLimits;
use crate::exports::polytwkb_standard_limits;

// The place of the size in bytes of all words.
const SIZE: usize = 0;

/// The place of the style.
pub(crate) const STYLE: usize = 1;

// The places of the limits.
const NEST: usize = 2;

const NODES: usize = 3;

const POINTS: usize = 4;

/// The number of words of a conversion of tables and streams.
pub(crate) const KNOWN: usize = 5;

/// The place of the precision of a column.
pub(crate) const PRECISION: usize = 5;

/// The place of the delimiter of a column.
pub(crate) const DELIMITER: usize = 6;

/// The number of words of a conversion of a column.
pub(crate) const COLUMN_KNOWN: usize = 7;

// The word at a place; 0 if the words end before it.
pub(crate) fn option_at(words: &[u32], place: usize) -> u32
    ensures { result ≡ option_at words.now place }
{
    match words.get(place) {
        Some(word) => *word,
        None => 0,
    }
}

// Whether all words are 0.
fn are_zero(words: &[u32]) -> bool
    ensures { IsTrue result ↔ All (λ word. word ≡ 0) words.now }
{
    words.iter().all(|&word| word == 0)
}

// Whether the words after the first `known` ones are 0.
fn are_known(words: &[u32], known: usize) -> bool
    ensures { IsTrue result ↔ All (λ word. word ≡ 0) (drop known words.now) }
{
    if words.len() <= known {
        return true;
    }
    are_zero(&words[known..])
}

// Whether the first word is the size of all of them in bytes, which is 0 for none, and those after
// the first `known` ones are 0.
pub(crate) fn are_options(words: &[u32], known: usize) -> bool
    ensures { IsTrue result ↔ AreOptionsOf known words.now }
{
    let size = option_at(words, SIZE) as usize;
    if size % 4 != 0 || size / 4 != words.len() {
        return false;
    }
    are_known(words, known)
}

// The limits that options give: the standard ones if all three are 0.
pub(crate) fn option_limits(words: &[u32]) -> BufferLimits
    ensures { result ≡ option_limits words.now }
{
    let nest = option_at(words, NEST);
    let nodes = option_at(words, NODES);
    let points = option_at(words, POINTS);
    if u64::from(nest) + u64::from(nodes) + u64::from(points) == 0 {
        return polytwkb_standard_limits();
    }
    BufferLimits {
        nest,
        nodes,
        points,
    }
}
