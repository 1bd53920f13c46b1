//! Reads lines, and prints each with its answers after it, by the meaning of the word that begins
//! it.
#![tactic(auto)]

mod calls;
mod conversions;
mod forms;
mod streams;
mod tables;
mod text;
mod values;

use crate::calls::{
    put_blob_calls, put_input, put_output, put_session, put_sinks, put_table_calls,
};
use crate::conversions::{put_all, put_conversion, put_request, put_run};
use crate::forms::{put_admitted, put_encoded, put_form, put_tree};
use crate::streams::{put_located, put_read};
use crate::tables::{put_rows_table, put_table};
use crate::text::{bytes_of, count_of, cut_word, lines_of, put};
use crate::values::{
    put_box, put_cursor, put_field, put_number, put_polyline_of_bytes, put_polyline_of_text,
    put_units, put_zigzag,
};
use std::alloc::Global;
use std::io;
use std::io::{BufWriter, Write};
use twkb_conversions::Conversion;
use twkb_convert::Style;
use twkb_geom::Limits;
use twkb_num::{Five, Leb128};

fn main(rt: HostRuntime) -> io::Result<()> {
    let alloc = rt.alloc();
    let mut output = BufWriter::new(alloc, rt.stdout())?;
    let mut limits = Limits::standard();
    for line in rt.lines(alloc) {
        let line = line?;
        let mut text = Vec::new(alloc);
        put(&mut text, line.as_bytes());
        limits = answer(alloc, limits, line.as_str(), &mut text);
        put(&mut text, b"\n");
        output.write_all(&text)?;
    }
    output.flush()
}

// The meaning of a word for the line after it.
#[derive(Clone, Copy)]
enum Word {
    /// The limits of the lines that follow.
    Limits,
    /// Rows of a table, or a whole table, with a slash for each line end.
    Geometry,
    Form,
    Full,
    Plain,
    Table,
    TableCalls,
    /// Digits of bytes, in hexadecimal.
    Blob,
    Read,
    Show,
    Unpack,
    BlobCalls,
    Encoded,
    Units,
    Characters,
    FieldOfBytes,
    /// Words.
    Number,
    Zigzag,
    Cursor,
    Box,
    Polyline,
    PolylineOfBytes,
    Field,
    Input,
    Output,
    Sinks,
    Session,
    Admits,
    Run,
    Words,
    /// A comment: the line is only printed.
    Comment,
}

const WORDS: [(&str, Word); 30] = [
    ("limits", Word::Limits),
    ("geometry", Word::Geometry),
    ("form", Word::Form),
    ("full", Word::Full),
    ("plain", Word::Plain),
    ("table", Word::Table),
    ("table_calls", Word::TableCalls),
    ("blob", Word::Blob),
    ("read", Word::Read),
    ("show", Word::Show),
    ("unpack", Word::Unpack),
    ("blob_calls", Word::BlobCalls),
    ("encode", Word::Encoded),
    ("bytes", Word::Units),
    ("characters", Word::Characters),
    ("field_of_bytes", Word::FieldOfBytes),
    ("number", Word::Number),
    ("zigzag", Word::Zigzag),
    ("cursor", Word::Cursor),
    ("box", Word::Box),
    ("polyline", Word::Polyline),
    ("polyline_of_bytes", Word::PolylineOfBytes),
    ("field", Word::Field),
    ("input", Word::Input),
    ("output", Word::Output),
    ("sinks", Word::Sinks),
    ("session", Word::Session),
    ("admits", Word::Admits),
    ("run", Word::Run),
    ("words", Word::Words),
];

// The meaning of a word.
fn meaning_of(word: &str) -> Word {
    for (name, meaning) in &WORDS {
        if *name == word {
            return *meaning;
        }
    }
    Word::Comment
}

// The limits with three numbers: nesting, nodes and points; the standard ones if the numbers are
// no limits.
fn limits_of(numbers: &str) -> Limits {
    let (nest, rest) = cut_word(numbers);
    let (nodes, points) = cut_word(rest);
    let limits = Limits::try_new(count_of(nest), count_of(nodes), count_of(points));
    limits.unwrap_or(Limits::standard())
}

// Prints the answers for tables, whose header is left out except in a whole table.
fn answer_lines(alloc: Global, limits: Limits, what: Word, lines: &[u8], text: &mut Vec<u8>) {
    match what {
        Word::Geometry => put_tree(alloc, limits, lines, text),
        Word::Form => put_form(alloc, lines, text),
        Word::Full => put_rows_table(alloc, Style::Full, limits, lines, text),
        Word::Plain => put_rows_table(alloc, Style::Plain, limits, lines, text),
        Word::Table => put_table(alloc, Style::Full, limits, lines, text),
        Word::TableCalls => put_table_calls(alloc, lines, text),
        _ => {}
    }
}

// Prints the lines of `show`, and the spans.
fn put_shown_stream(alloc: Global, limits: Limits, bytes: &[u8], text: &mut Vec<u8>) {
    put_conversion(alloc, Conversion::Show, limits, bytes, text);
    put_located(alloc, limits, bytes, text);
}

// Prints the table of a stream.
fn put_unpacked(alloc: Global, limits: Limits, bytes: &[u8], text: &mut Vec<u8>) {
    put_conversion(alloc, Conversion::Unpack, limits, bytes, text);
}

// Prints the answers for bytes.
fn answer_bytes(alloc: Global, limits: Limits, what: Word, bytes: &[u8], text: &mut Vec<u8>) {
    match what {
        Word::Blob => put_all(alloc, limits, bytes, text),
        Word::Read => put_read(alloc, limits, bytes, text),
        Word::Show => put_shown_stream(alloc, limits, bytes, text),
        Word::Unpack => put_unpacked(alloc, limits, bytes, text),
        Word::BlobCalls => put_blob_calls(alloc, bytes, text),
        Word::Encoded => put_encoded(alloc, bytes, text),
        Word::Units => put_units::<Leb128>(alloc, bytes, text),
        Word::Characters => put_units::<Five>(alloc, bytes, text),
        Word::FieldOfBytes => put_field(alloc, bytes, text),
        _ => {}
    }
}

// Prints the answers for words.
fn answer_words(alloc: Global, what: Word, rest: &str, text: &mut Vec<u8>) {
    match what {
        Word::Number => put_number(alloc, rest, text),
        Word::Zigzag => put_zigzag(alloc, rest, text),
        Word::Cursor => put_cursor(alloc, rest, text),
        Word::Box => put_box(alloc, rest, text),
        Word::Polyline => put_polyline_of_text(alloc, rest, text),
        Word::PolylineOfBytes => put_polyline_of_bytes(alloc, rest, text),
        Word::Field => put_field(alloc, rest.as_bytes(), text),
        Word::Input => put_input(alloc, rest, text),
        Word::Output => put_output(alloc, rest, text),
        Word::Sinks => put_sinks(alloc, rest, text),
        Word::Session => put_session(alloc, rest, text),
        Word::Admits => put_admitted(alloc, rest, text),
        Word::Run => put_run(alloc, rest, text),
        Word::Words => put_request(alloc, rest, text),
        _ => {}
    }
}

// Prints the answers for a line under these limits, and returns the limits for the lines after it.
fn answer(alloc: Global, limits: Limits, line: &str, text: &mut Vec<u8>) -> Limits {
    let (word, rest) = cut_word(line);
    let what = meaning_of(word);
    answer_lines(alloc, limits, what, &lines_of(alloc, rest), text);
    answer_bytes(alloc, limits, what, &bytes_of(alloc, rest), text);
    answer_words(alloc, what, rest, text);
    match what {
        Word::Limits => limits_of(rest),
        _ => limits,
    }
}
