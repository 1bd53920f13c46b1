//! The words for a missing value.
ghost use Rattle.std.specs.Prelude.{◌≡◌};
ghost use Rattle.twkb_csv.specs.Named as named;

/// Whether a field is one of these words. Takes no memory.
pub fn is_among(words: &[&[u8]], field: &[u8]) -> bool
    ensures { result ≡ named.is_among words.now field.now }
{
    for word in words {
        if field == *word {
            return true;
        }
    }
    false
}

/// Whether a field is a word that other programs write for a missing value: `NULL`, `\N`, `NA`,
/// `NaN`, `NaT`, `NONE` or `[NULL]`. Takes no memory.
pub fn is_missing(field: &[u8]) -> bool
    ensures { result ≡ named.is_missing field.now }
{
    field == b"NULL".as_slice()
        || field == b"\\N".as_slice()
        || field == b"NA".as_slice()
        || field == b"NaN".as_slice()
        || field == b"NaT".as_slice()
        || field == b"NONE".as_slice()
        || field == b"[NULL]".as_slice()
}
