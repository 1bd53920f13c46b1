//! The printed text, and the meaning of a line's words. If memory is refused, words are missing
//! from the text, which then differs.
use std::alloc::Global;
use std::fmt::{Debug, Display};
use twkb_table::header_text;

/// Appends bytes.
pub fn put(text: &mut Vec<u8>, bytes: &[u8]) {
    let _is_put = text.extend_from_slice(bytes).is_ok();
}

/// Appends a word and a value's text.
pub fn put_shown<D: Display>(alloc: Global, text: &mut Vec<u8>, word: &[u8], shown: &D) {
    put(text, word);
    if let Ok(words) = format!(in alloc; "{shown}") {
        put(text, words.as_bytes());
    }
}

/// Appends a word and a value with the names of its parts.
pub fn put_named<D: Debug>(alloc: Global, text: &mut Vec<u8>, word: &[u8], named: &D) {
    put(text, word);
    if let Ok(words) = format!(in alloc; "{named:?}") {
        put(text, words.as_bytes());
    }
}

/// Appends a word and counts, each after a space.
pub fn put_counts(alloc: Global, text: &mut Vec<u8>, word: &[u8], counts: &[u64]) {
    put(text, word);
    for count in counts {
        put_shown(alloc, text, b" ", count);
    }
}

/// Appends why something stopped, if it did.
pub fn put_stop<D: Display + Copy>(alloc: Global, text: &mut Vec<u8>, stop: Option<D>) {
    if let Some(fault) = stop {
        put_shown(alloc, text, b"; ", &fault);
    }
}

/// Appends the hexadecimal digits of bytes, if there are any, after a space.
pub fn put_hex(alloc: Global, text: &mut Vec<u8>, bytes: &[u8]) {
    if bytes.is_empty() {
        return;
    }
    put(text, b" ");
    if let Ok(digits) = hex::encode(alloc, bytes) {
        put(text, digits.as_bytes());
    }
}

// Appends bytes, with one byte replaced by another.
fn put_replaced(text: &mut Vec<u8>, bytes: &[u8], old: u8, new: u8) {
    for byte in bytes {
        put(text, &[if *byte == old { new } else { *byte }]);
    }
}

/// Appends lines, if there are any, each ended by a slash, after a space.
pub fn put_lines(text: &mut Vec<u8>, lines: &[u8]) {
    if !lines.is_empty() {
        put(text, b" ");
        put_replaced(text, lines, b'\n', b'/');
    }
}

/// The lines that a word stands for: a slash ends a line, and an exclamation mark is a carriage return.
pub fn lines_of(alloc: Global, word: &str) -> Vec<u8> {
    let mut half = Vec::new(alloc);
    put_replaced(&mut half, word.as_bytes(), b'/', b'\n');
    let mut lines = Vec::new(alloc);
    put_replaced(&mut lines, &half, b'!', b'\r');
    lines
}

/// The table of these rows.
pub fn table_of(alloc: Global, rows: &[u8]) -> Vec<u8> {
    let mut table = Vec::new(alloc);
    put(&mut table, header_text());
    put(&mut table, rows);
    table
}

/// The bytes of hexadecimal digits; none if the word has others.
pub fn bytes_of(alloc: Global, digits: &str) -> Vec<u8> {
    hex::decode(alloc, digits).unwrap_or(Vec::new(alloc))
}

/// The first word, and the rest after it.
pub fn cut_word(line: &str) -> (&str, &str) {
    line.split_once(' ').unwrap_or((line, ""))
}

/// The number of 64 bits that a word spells; 0 if it spells none.
pub fn number_of(word: &str) -> u64 {
    word.parse::<u64>().unwrap_or(0)
}

/// The number of 32 bits that a word spells; 0 if it spells none.
pub fn count_of(word: &str) -> u32 {
    word.parse::<u32>().unwrap_or(0)
}
