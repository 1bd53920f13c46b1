//! The texts of reasons, by their numbers, and of the version, copied into a caller's buffer.
ghost use Rattle.std.specs.Prelude.{◌≡◌, ◌≢◌, ◌≤◌, IfSome, IsNone, length};
ghost use Rattle.twkb_convert.specs.declared.report.Cause.{Cause};
ghost use Rattle.twkb_convert.specs.Version.{version_text};
ghost use Rattle.twkb_buffer.specs.Numbers.{blob_number_of, point_text_number_of, row_number_of};
ghost use Rattle.twkb_buffer.specs.Texts.{AreWordsOf, HasReason, NamesNoBlob, NamesNoPointText, NamesNoRow, PutsText};
ghost use Rattle.twkb_buffer.specs.Texts.{other_words, with_text};

use twkb_convert::{BlobReason, Cause, PolyReason, RowReason, VERSION};

// The reason with this number for which a polyline is refused; `None` for a number outside 21 to
// 27.
fn point_text_reason(number: u32) -> Option<PolyReason>
    ensures some { IfSome result (λ reason. (point_text_number_of reason ≡ number) × (number ≢ 0)) }
    ensures none { IsNone result → NamesNoPointText number }
{
    match number {
        21 => Some(PolyReason::BadChar),
        22 => Some(PolyReason::Cut),
        23 => Some(PolyReason::TooLong),
        24 => Some(PolyReason::Padded),
        25 => Some(PolyReason::Half),
        26 => Some(PolyReason::Range),
        27 => Some(PolyReason::TooMany),
        _ => None,
    }
}

// The reason with this number for which a record is refused, with 0 for the place in its polyline;
// `None` for a number other than 1 to 14, 16 and 21 to 27.
fn row_reason(number: u32) -> Option<RowReason>
    ensures some { IfSome result (λ reason. (row_number_of reason ≡ number) × (number ≢ 0)) }
    ensures none { IsNone result → NamesNoRow number }
    ensures no_polyline { IsNone result → NamesNoPointText number }
{
    match number {
        1 => Some(RowReason::BadHeader),
        2 => Some(RowReason::FieldCount),
        3 => Some(RowReason::BadDepth),
        4 => Some(RowReason::BadKind),
        5 => Some(RowReason::BadPlace),
        6 => Some(RowReason::TooDeep),
        7 => Some(RowReason::TooManyNodes),
        8 => Some(RowReason::BadId),
        9 => Some(RowReason::IdNotAllowed),
        10 => Some(RowReason::MixedIds),
        11 => Some(RowReason::BadPrecision),
        12 => Some(RowReason::PrecisionMissing),
        13 => Some(RowReason::PrecisionNotAllowed),
        14 => Some(RowReason::PolylineNotAllowed),
        16 => Some(RowReason::PointCount),
        _ => Some(RowReason::Polyline(0, point_text_reason(number)?)),
    }
}

// The reason with this number for which a blob is refused; `None` for a number outside 41 to 49.
fn blob_reason(number: u32) -> Option<BlobReason>
    ensures some { IfSome result (λ reason. (blob_number_of reason ≡ number) × (number ≢ 0)) }
    ensures none { IsNone result → NamesNoBlob number }
{
    match number {
        41 => Some(BlobReason::Truncated),
        42 => Some(BlobReason::BadType),
        43 => Some(BlobReason::ExtraDimensions),
        44 => Some(BlobReason::BadVarint),
        45 => Some(BlobReason::TooDeep),
        46 => Some(BlobReason::TooManyNodes),
        47 => Some(BlobReason::TooManyPoints),
        48 => Some(BlobReason::CoordinateRange),
        49 => Some(BlobReason::SizeMismatch),
        _ => None,
    }
}

// A cause whose reason has this number, with 0 for each place; `None` if no cause has such a
// reason.
#[tactic(auto, using(crate::proofs::RunLemmas::no_cause))]
fn cause_of(number: u32) -> Option<Cause>
    ensures some { IfSome result (HasReason number) }
    ensures none { IsNone result → (why : Cause) → HasReason number why → ⊥ }
{
    if let Some(reason) = row_reason(number) {
        return Some(Cause::Row { number: 0, reason });
    }
    if let Some(reason) = blob_reason(number) {
        return Some(Cause::Blob { offset: 0, reason });
    }
    match number {
        61 => Some(Cause::TooLong),
        62 => Some(Cause::TooManyRecords),
        _ => None,
    }
}

// The words of the reason with this number, 71 or above, for which rows and points in arrays, or a
// column, are refused; the empty text for any other number.
fn other_words(number: u32) -> &'static str
    ensures words { result.now ≡ other_words number }
    ensures short { length result.now ≤ 31 }
{
    match number {
        71 => "points missing",
        72 => "points left over",
        81 => "no such column",
        82 => "column twice",
        83 => "wrong number of fields",
        84 => "missing value",
        91 => "no linestring",
        92 => "another precision",
        _ => "",
    }
}

// The words of the reason with this number, at most 31 bytes; the empty text if no reason has it.
#[tactic(auto, using(crate::proofs::RunLemmas::named, crate::proofs::RunLemmas::unnamed))]
fn words_of(number: u32) -> &'static str
    ensures words { AreWordsOf number result.now }
    ensures short { length result.now ≤ 31 }
{
    match cause_of(number) {
        Some(why) => why.text(),
        None => other_words(number),
    }
}

// Copies a text, cut if there is too little room, and after it a zero byte, to the start of a
// buffer; an empty buffer stays as it is. Returns the length of the whole text without the zero
// byte.
fn put(words: &str, text: &mut [u8]) -> usize
    ensures copied { text.new ≡ with_text words.now text.old }
    ensures length { result ≡ length words.now }
{
    let words = words.as_bytes();
    if !text.is_empty() {
        let count = words.len().min(text.len() - 1);
        text[count] = 0;
        text[..count].copy_from_slice(&words[..count]);
    }
    words.len()
}

/// Copies the text of the reason with this number, cut if there is too little room, and after it a
/// zero byte, to the start of a buffer; an empty buffer stays as it is. Returns the length of the
/// whole text without the zero byte, at most 31. A number that no reason has gives the empty text.
/// Takes no memory.
pub fn put_reason(reason: u32, text: &mut [u8]) -> usize
    ensures { PutsText (AreWordsOf reason) text.old text.new result }
{
    put(words_of(reason), text)
}

/// Copies the version of the command and of the library, cut if there is too little room, and after
/// it a zero byte, to the start of a buffer; an empty buffer stays as it is. Returns the length of
/// the whole text without the zero byte, at most 31. Takes no memory.
pub fn put_version(text: &mut [u8]) -> usize
    ensures { PutsText (λ words. words ≡ version_text) text.old text.new result }
{
    put(VERSION, text)
}
