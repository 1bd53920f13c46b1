//! The results of conversions of blobs and tables, and of whole runs of the command, as lines of
//! text.
use super::text::{
    bytes_of, cut_word, lines_of, put, put_counts, put_hex, put_lines, put_named, put_shown,
    put_stop, table_of,
};
use std::alloc::Global;
use twkb_command::{joined_words, read_words, run};
use twkb_conversions::{Conversion, convert};
use twkb_convert::{ConvertFault, Report, Style};
use twkb_geom::Limits;
use twkb_io::Tap;

// The word of a conversion: its style, or its name if it has none.
fn word_of(what: Conversion) -> &'static str {
    match what {
        Conversion::Pack(Style::Full) => "full",
        Conversion::Pack(Style::Plain) => "plain",
        _ => what.words().name,
    }
}

// The numbers of geometries converted and of bytes written.
fn counts_of(answer: Result<Report, ConvertFault>) -> [u64; 2] {
    match answer {
        Ok(report) => [report.geometries, report.bytes],
        Err(fault) => [fault.done, fault.sent],
    }
}

/// Prints the numbers of a conversion, the lines or bytes that it wrote, and why it stopped;
/// returns what it wrote.
pub fn put_conversion(
    alloc: Global,
    what: Conversion,
    limits: Limits,
    input: &[u8],
    text: &mut Vec<u8>,
) -> Vec<u8> {
    let mut reader = Tap::new(input);
    let mut writer = Tap::new(Vec::new(alloc));
    let answer = convert(alloc, what, &mut reader, &mut writer, limits);
    let written = writer.into_inner();
    put(text, b"\n  ");
    put_counts(alloc, text, word_of(what).as_bytes(), &counts_of(answer));
    match what {
        Conversion::Pack(_) => put_hex(alloc, text, &written),
        _ => put_lines(text, &written),
    }
    put_stop(alloc, text, answer.err());
    written
}

/// Prints the result of each conversion of a blob: its headers, its table, and that table's blobs
/// in both styles.
pub fn put_all(alloc: Global, limits: Limits, blob: &[u8], text: &mut Vec<u8>) {
    put_conversion(alloc, Conversion::Show, limits, blob, text);
    let table = put_conversion(alloc, Conversion::Unpack, limits, blob, text);
    put_conversion(alloc, Conversion::Pack(Style::Full), limits, &table, text);
    put_conversion(alloc, Conversion::Pack(Style::Plain), limits, &table, text);
}

// ---- whole runs of the command

// The words of a line.
fn words_of(alloc: Global, line: &str) -> Vec<String> {
    let mut words = Vec::new(alloc);
    for name in line.split(' ') {
        if let Ok(word) = name.to_string(alloc) {
            let _is_pushed = words.push(word).is_ok();
        }
    }
    words
}

// Prints a word and the output after it: as digits if it begins with a control character or no
// ASCII, otherwise as lines.
fn put_output(alloc: Global, word: &[u8], output: &[u8], text: &mut Vec<u8>) {
    put(text, word);
    match output.first() {
        Some(byte) if *byte < b' ' || *byte > b'~' => put_hex(alloc, text, output),
        _ => put_lines(text, output),
    }
}

// The input that the words give: digits, rows, or a whole text.
fn input_of(alloc: Global, given: &str) -> Vec<u8> {
    let (word, rest) = cut_word(given);
    match word {
        "rows" => table_of(alloc, &lines_of(alloc, rest)),
        "text" => lines_of(alloc, rest),
        _ => bytes_of(alloc, rest),
    }
}

/// Prints the result of a run with the words of a line, over the input that follows them after a `<`.
pub fn put_run(alloc: Global, rest: &str, text: &mut Vec<u8>) {
    let (line, given) = rest.split_once(" < ").unwrap_or((rest, ""));
    put_run_over(alloc, line, &input_of(alloc, given), text);
}

// Prints the status of a run, and what it wrote to both writers.
fn put_run_over(alloc: Global, line: &str, input: &[u8], text: &mut Vec<u8>) {
    let mut reader = Tap::new(input);
    let mut writer = Tap::new(Vec::new(alloc));
    let mut errors = Tap::new(Vec::new(alloc));
    let words = words_of(alloc, line);
    let status = run(alloc, &words, &mut reader, &mut writer, &mut errors);
    put_shown(alloc, text, b"\n  status ", &status);
    put_output(alloc, b"\n  output", &writer.into_inner(), text);
    put_output(alloc, b"\n  errors", &errors.into_inner(), text);
}

/// Prints the request that the words of a line make: a conversion, three limits and a style.
pub fn put_request(alloc: Global, line: &str, text: &mut Vec<u8>) {
    let words = words_of(alloc, line);
    let joined = joined_words(alloc, &words).unwrap_or(Vec::new(alloc));
    let request = read_words(alloc, &joined).ok();
    put_named(alloc, text, b"\n  asks for ", &request);
}
