//! The brackets and quotes of a block of bytes, counted.
ghost use Rattle.std.specs.Prelude.{◌≡◌, ◌+◌, ◌<◌, length, count_by};
ghost use Rattle.twkb_features.specs.Nesting.{is_opening, is_closing};
ghost use Rattle.twkb_features.specs.Taken.{is_quote, one_if};

// The number of bytes of a block.
pub(crate) const BLOCK: usize = 32;

// How many bytes of a block are opening brackets, closing brackets and quotes.
#[derive(Clone, Copy)]
pub(crate) struct Counts {
    pub(crate) opens: u8,
    pub(crate) closes: u8,
    pub(crate) quotes: u8,
}

// Counts the brackets and quotes of a block.
#[inline(always)]
pub(crate) fn count_brackets(block: &[u8]) -> Counts
    requires whole { length block.now ≡ 32 }
    ensures opens { result.opens ≡ count_by is_opening block.now }
    ensures closes { result.closes ≡ count_by is_closing block.now }
    ensures quotes { result.quotes ≡ count_by is_quote block.now }
{
    let mut opens = 0;
    let mut closes = 0;
    let mut quotes = 0;
    for byte in block {
        let is_open = is_opening(*byte);
        let is_close = is_closing(*byte);
        opens = counted(opens, is_open);
        closes = counted(closes, is_close);
        quotes = counted(quotes, *byte == b'"');
    }
    Counts {
        opens,
        closes,
        quotes,
    }
}

// One more if a byte is counted.
#[inline(always)]
fn counted(count: u8, is_counted: bool) -> u8
    requires few { count < 255 }
    ensures { result ≡ count + one_if is_counted }
{
    count + u8::from(is_counted)
}

// An opening bracket of an array or an object.
#[inline(always)]
pub(crate) fn is_opening(byte: u8) -> bool
    ensures { result ≡ is_opening byte }
{
    byte == b'[' || byte == b'{'
}

// A closing bracket of an array or an object.
#[inline(always)]
pub(crate) fn is_closing(byte: u8) -> bool
    ensures { result ≡ is_closing byte }
{
    byte == b']' || byte == b'}'
}
