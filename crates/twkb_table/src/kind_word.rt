//! The words of the kinds, read from a field and appended to a text.
ghost use Rattle.std.specs.Prelude.{◌≡◌, ◌↔◌, ◌≤◌, ◌+◌, [], ◌∷◌, ◌++◌, length, IsTrue, IfSome, IfNone};
ghost use Rattle.twkb_table.specs.Record.{Reads, kind_of_ten};
ghost use Rattle.twkb_tree.specs.Kind.{word_of};

use twkb_num::{Piece, eight_bytes, four_bytes};
use twkb_tree::Kind;

/// Reads a kind from its word, `point`, `linestring`, `polygon`, `ring`, `multipoint`,
/// `multilinestring`, `multipolygon` or `collection` (profile); `None` for any other field. Takes
/// no memory.
#[inline(always)]
pub fn parse_kind(field: &[u8]) -> Option<Kind>
    ensures reads { Reads (λ kind. field.now ≡ word_of kind) result }
{
    match field.len() {
        4 => only_kind(field, Kind::Ring),
        5 => only_kind(field, Kind::Point),
        7 => only_kind(field, Kind::Polygon),
        10 => only_kind(field, kind_of_ten(field[0])),
        12 => only_kind(field, Kind::MultiPolygon),
        15 => only_kind(field, Kind::MultiLinestring),
        _ => None,
    }
}

// The kind whose word to compare with a field of ten bytes, by the field's first byte: a linestring
// for `l`, a multipoint for `m`, and a collection for any other. The field is no other kind's word.
#[inline(always)]
fn kind_of_ten(first: u8) -> Kind
    ensures { result ≡ kind_of_ten first }
{
    match first {
        b'l' => Kind::Linestring,
        b'm' => Kind::MultiPoint,
        _ => Kind::Collection,
    }
}

// This kind, if the field is its word; else `None`. The word must have as many bytes as the field.
#[inline(always)]
fn only_kind(field: &[u8], kind: Kind) -> Option<Kind>
    requires { length field.now ≡ length (word_of kind) }
    ensures same { IfSome result (λ found. found ≡ kind) }
    ensures word { IfSome result (λ _. field.now ≡ word_of kind) }
    ensures other { IfNone result (¬ (field.now ≡ word_of kind)) }
{
    is_word(field, kind.word()).then_some(kind)
}

// Whether two words are equal, which must have the same number of bytes, from 4 to 16. They are
// compared by the first and the last four bytes, or eight bytes if they have as many.
// Not `inline(always)`: with it, what is inlined in `judge` passes the size from which the kit
// drops that word from `judge` without a message.
#[inline]
fn is_word(field: &[u8], word: &[u8]) -> bool
    requires same_length { length field.now ≡ length word.now }
    requires long { 4 ≤ length word.now }
    requires short { length word.now ≤ 16 }
    ensures { IsTrue result ↔ (field.now ≡ word.now) }
{
    let count = word.len();
    if count < 8 {
        let (front, back) = (four_bytes(field), four_bytes(&field[count - 4..]));
        return front == four_bytes(word) && back == four_bytes(&word[count - 4..]);
    }
    let (front, back) = (eight_bytes(field), eight_bytes(&field[count - 8..]));
    front == eight_bytes(word) && back == eight_bytes(&word[count - 8..])
}

/// Appends the word of a kind, with this byte before and after it, to a piece, which must have room
/// for 17 bytes. Takes no memory.
#[inline(always)]
pub fn push_kind(kind: Kind, around: u8, piece: &mut Piece<128>)
    requires room { length piece.old + 17 ≤ 128 }
    ensures appended { piece.new ≡ piece.old ++ around ∷ (word_of kind ++ around ∷ []) }
    ensures most { length piece.new ≤ length piece.old + 17 }
{
    let (word, count) = kind.padded_name();
    piece.push(around);
    // the word is copied with its padding, so that each copy has one size
    piece.push_prefix(word, count);
    piece.push(around);
}
