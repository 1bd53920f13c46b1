//! The line that `show` prints for a span.
ghost use Rattle.std.specs.Prelude.{◌≡◌, ◌<◌, ◌≤◌, ◌+◌, [], ◌∷◌, ◌++◌, OnOk, decimal, length, true};
ghost use Rattle.std.specs.Fmt.{digit_glyph, signed_decimal};
ghost use Rattle.twkb_convert.specs.Listings.{Adds, span_line};

use itoa::{Buffer, Integer};
use std::alloc::AllocError;
use twkb_blob::Span;
use twkb_num::Piece;
use twkb_table::push_kind;

// Appends the line of a span: its level, offset, kind, precision, metadata byte in hexadecimal,
// length and number of points, with a space between them and LF at the end. Takes memory. The seven
// words and their ends have at most 124 bytes.
pub(crate) fn put_line(span: &Span, text: &mut Vec<u8>) -> Result<(), AllocError>
    ensures appended { OnOk result (text.new.items ≡ text.old.items ++ span_line span.now) }
{
    let mut line = Piece::<128>::new();
    push_count(u64::from(span.level), b' ', &mut line);
    push_number(span.offset, &mut line);
    push_kind(span.kind, b' ', &mut line);
    push_precision(span.precision, &mut line);
    line.push(hex_digit(span.metadata / 16));
    line.push(hex_digit(span.metadata % 16));
    line.push(b' ');
    push_count(span.length, b' ', &mut line);
    push_count(span.points, b'\n', &mut line);
    text.extend_from_slice(line.as_slice())
}

// Appends a precision as a decimal, and a space, to a line, which must have room for 21 bytes. Most
// precisions are not negative, and are appended as counts are.
#[inline(always)]
fn push_precision(precision: i8, line: &mut Piece<128>)
    requires room { length line.old + 21 ≤ 128 }
    ensures { Adds 21 line.old (signed_decimal precision ++ 32 ∷ []) line.new }
{
    if 0 <= precision {
        push_count(precision as u64, b' ', line);
    } else {
        push_number(precision, line);
        line.push(b' ');
    }
}

// Appends a count as a decimal, and a byte after it, to a line, which must have room for 21 bytes.
// Most counts have one or two digits.
#[inline(always)]
fn push_count(count: u64, end: u8, line: &mut Piece<128>)
    requires room { length line.old + 21 ≤ 128 }
    ensures { Adds 21 line.old (decimal count ++ end ∷ []) line.new }
{
    if count < 10 {
        line.push(b'0' + count as u8);
    } else if count < 100 {
        line.push(b'0' + (count / 10) as u8);
        line.push(b'0' + (count % 10) as u8);
    } else {
        push_number(count, line);
    }
    line.push(end);
}

// Appends a number as a decimal to a line, which must have room for the longest decimal of the
// number's type.
#[inline(always)]
fn push_number<I: Integer>(number: I, line: &mut Piece<128>)
    requires room { length line.old + I.MAX_STR_LEN ≤ 128 }
    ensures appended { line.new ≡ line.old ++ I.text number }
    ensures most { length line.new ≤ length line.old + I.MAX_STR_LEN }
{
    let mut buffer = Buffer::new();
    line.push_all(buffer.format(number).as_bytes());
}

// The upper-case hexadecimal digit of a number, which must be below 16.
fn hex_digit(number: u8) -> u8
    requires { number < 16 }
    ensures { result ≡ digit_glyph true number }
{
    if number < 10 {
        b'0' + number
    } else {
        b'A' - 10 + number
    }
}
