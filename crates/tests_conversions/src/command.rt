//! Runs of the command: words that are refused, and runs while memory is short. A run gets a line
//! of words, an input and its devices.
mod devices;

use crate::devices::{AMPLE, Failing, SOUND, cut_reader, cut_writer, short_writer};
use std::alloc::Global;
use std::io::ErrorKind;
use twkb_command::{report_unread_words, run};
use twkb_io::Tap;

// Two points, (2, 1) and (1, 1), as a table and as blobs.
const POINT_TABLE: &[u8] = b"depth,kind,id,precision,polyline\n0,point,,0,AC\n0,point,,0,AA\n";

const POINT_BLOBS: &[u8] = b"\x01\x02\x02\x04\x02\x01\x02\x02\x02\x02";

// A collection of a point with id 7 and an empty linestring with id -1, as a table, as a blob,
// and as shown.
const COLLECTION_TABLE: &[u8] =
    b"depth,kind,id,precision,polyline\n0,collection,,0,\n1,point,7,0,AA\n1,linestring,-1,0,\n";

const COLLECTION_BLOB: &[u8] =
    b"\x07\x07\x0F\x02\x00\x02\x00\x02\x0E\x01\x01\x02\x02\x02\x02\x02\x12\x00";

const COLLECTION_LINES: &[u8] =
    b"0 0 collection 0 07 18 1\n1 10 point 0 02 5 1\n1 15 linestring 0 12 3 0\n";

// Appends a word, unless memory is refused.
fn put_word(alloc: Global, name: &str, words: &mut Vec<String>) -> bool {
    match name.to_string(alloc) {
        Ok(word) => words.push(word).is_ok(),
        Err(_) => false,
    }
}

// Appends the words of a line after the program's name, unless memory is refused; an empty line
// has no words.
fn put_words(alloc: Global, line: &str, words: &mut Vec<String>) -> bool {
    let mut are_put = true;
    if !line.is_empty() {
        for name in line.split(' ') {
            are_put = are_put && put_word(alloc, name, words);
        }
    }
    are_put
}

// The result of a run: its status if there was memory for its words, and what both writers took.
#[derive(Drop)]
struct Ended {
    status: Option<u8>,
    output: Vec<u8>,
    errors: Vec<u8>,
}

// Runs the words of a line over devices that pass one byte a call; the writer fills an empty room.
fn run_over(
    alloc: Global,
    line: &str,
    input: &[u8],
    failing: Failing,
    told: u64,
    room: Vec<u8>,
) -> Ended {
    let mut reader = cut_reader(input, failing.given);
    let mut writer = cut_writer(room, failing);
    let mut errors = short_writer(alloc, told);
    let mut words = Vec::new(alloc);
    let status = if put_words(alloc, line, &mut words) {
        Some(run(alloc, &words, &mut reader, &mut writer, &mut errors))
    } else {
        None
    };
    Ended {
        status,
        output: writer.into_inner().into_inner(),
        errors: errors.into_inner().into_inner(),
    }
}

// ---- words that are refused, and words for which memory is refused

// Whether a run ended with status 2 and a text on standard error alone, which contains this word.
fn names(ended: &Ended, named: &str) -> bool {
    let is_named = match str::from_utf8(&ended.errors) {
        Ok(text) => text.starts_with("error: ") && text.contains(named),
        Err(_) => false,
    };
    ended.status == Some(2) && ended.output.is_empty() && is_named
}

// Whether a line is refused with a text that contains this word.
fn is_refused(alloc: Global, line: &str, named: &str) -> bool {
    let ended = run_over(alloc, line, POINT_TABLE, SOUND, AMPLE, Vec::new(alloc));
    names(&ended, named)
}

// Whether a row, a line followed by the word that its text contains, is refused.
fn is_row_refused(alloc: Global, row: &str) -> bool {
    match row.split_once(" > ") {
        Some((line, named)) => is_refused(alloc, line, named),
        None => false,
    }
}

// Lines, and the word that their text contains: nestings and styles that do not exist, no words
// at all, and unknown words. They are one text, since a row of a table makes the proof of the
// test more expensive.
const REFUSED: &str = "polytwkb pack --max-nest 33 > '33'
polytwkb unpack --max-nest 33 > '33'
polytwkb show --max-nest 33 > '33'
polytwkb pack --max-nest x > 'x'
polytwkb pack --max-nest=-1 > '-1'
polytwkb pack --max-nest > --max-nest
polytwkb pack --max-nest 1 --max-nest 2 > --max-nest
polytwkb --max-nest 3 > --max-nest
polytwkb pack --style thin > 'thin'
polytwkb pack --style Plain > 'Plain'
polytwkb pack --style > --style
polytwkb pack --style plain --style plain > --style
polytwkb unpack --style plain > --style
polytwkb unpack --geojson=true > 'true'
polytwkb unpack --geojson --geojson > --geojson
polytwkb pack --geojson > --geojson
polytwkb show --geojson > --geojson
polytwkb pack --precision 5 > --column
polytwkb pack --ids a > --column
polytwkb pack --column a > --precision
polytwkb pack --column a --precision 5 --hex=x > 'x'
polytwkb pack --column a --precision 5 --hex=bare --hex=bare > '--hex=bare'
polytwkb pack --column a --precision 5 --hex --ids a > --ids
polytwkb pack --column a --precision 8 > '8'
polytwkb pack --column a --precision -9 > '-9'
polytwkb pack --column a --precision 5 --delimiter ;; > --delimiter
polytwkb unpack --column a --geojson > --geojson
polytwkb unpack --collection > --geojson
polytwkb unpack --hex > --column
polytwkb unpack --column a --hex=x > 'x'
polytwkb unpack --precision 5 > --precision
polytwkb show --column a > --column
polytwkb show --style full > --style
 > subcommand
polytwkb > subcommand
polytwkb help > 'help'
polytwkb more > 'more'
polytwkb pack more most > 'most'
polytwkb pack -o more -o most > --output
polytwkb pack --unknown > '--unknown'
polytwkb pack --version > '--version'";

#[test]
fn words_that_are_refused_end_with_2(rt: HostRuntime) {
    for row in REFUSED.split('\n') {
        assert!(rt; is_row_refused(rt.alloc(), row), "{row}");
    }
}

// Whether words that can't be read for this reason have this status and this line. If memory was
// refused, `report_no_memory` reports it.
fn is_reported(alloc: Global, kind: ErrorKind, status: u8, line: &[u8]) -> bool {
    let mut errors = Tap::new(Vec::new(alloc));
    let found = report_unread_words(&mut errors, kind);
    let told = errors.into_inner();
    told.as_slice() == line && found == status
}

#[test]
fn words_without_memory_end_with_4_and_words_that_are_no_text_with_2(rt: HostRuntime) {
    let alloc = rt.alloc();
    assert!(rt;
        is_reported(
            alloc,
            ErrorKind::OutOfMemory,
            4,
            b"polytwkb: out of memory\n"
        )
    );
    assert!(rt;
        is_reported(
            alloc,
            ErrorKind::InvalidData,
            2,
            b"polytwkb: a word is not UTF-8\n"
        )
    );
}

// ---- runs while memory is short: with each growth refused in turn (`make hostile`)

// A run, and its status and output if there is enough memory.
#[derive(Clone, Copy)]
struct Run {
    line: &'static str,
    input: &'static [u8],
    status: u8,
    output: &'static [u8],
}

// Three lines of precision -1: of (2, 1), without a point, and of (2, 1).
const COLUMN_BLOBS: &[u8] = b"\x12\x03\x07\x04\x00\x02\x00\x01\x04\x02\x12\x12\x00\
    \x12\x03\x07\x04\x00\x02\x00\x01\x04\x02";

const CUT_STREAM: &[u8] = b"\x01\x00\x04\x02\x01\x00\x04";

const RUNS: [Run; 13] = [
    Run {
        line: "polytwkb pack",
        input: b"depth,kind,id,precision,polyline\n0,point,,0,AC\n0,point,,0,AA\n0,pont,,0,\n",
        status: 1,
        output: b"\x01\x02\x02\x04\x02",
    },
    Run {
        line: "polytwkb pack",
        input: COLLECTION_TABLE,
        status: 0,
        output: COLLECTION_BLOB,
    },
    Run {
        line: "polytwkb pack",
        input: b"depth,kind,id,precision,polyline\n0,multipolygon,,0,\n1,polygon,3,,\n\
            2,ring,,,AA\n2,ring,,,\n1,polygon,4,,\n",
        status: 0,
        output: b"\x06\x07\x0D\x02\x00\x02\x00\x02\x06\x08\x02\x01\x02\x02\x00\x00",
    },
    Run {
        line: "polytwkb unpack",
        input: CUT_STREAM,
        status: 1,
        output: b"depth,kind,id,precision,polyline\n0,point,,0,AC\n",
    },
    Run {
        line: "polytwkb unpack",
        input: COLLECTION_BLOB,
        status: 0,
        output: COLLECTION_TABLE,
    },
    Run {
        line: "polytwkb show",
        input: CUT_STREAM,
        status: 1,
        output: b"0 0 point 0 00 4 1\n",
    },
    Run {
        line: "polytwkb show",
        input: COLLECTION_BLOB,
        status: 0,
        output: COLLECTION_LINES,
    },
    Run {
        line: "polytwkb unpack --geojson",
        input: COLLECTION_BLOB,
        status: 0,
        output: b"{\"type\":\"GeometryCollection\",\"ids\":[7,-1],\"geometries\":[{\"type\":\"Point\",\
            \"coordinates\":[1,1]},{\"type\":\"LineString\",\"coordinates\":[]}]}\n",
    },
    Run {
        line: "polytwkb unpack --geojson --collection",
        input: CUT_STREAM,
        status: 1,
        output: b"{\"type\":\"FeatureCollection\",\"features\":[\n{\"type\":\"Feature\",\"properties\":{},\
            \"geometry\":{\"type\":\"Point\",\"coordinates\":[2,1]}}",
    },
    Run {
        line: "polytwkb pack --column line --precision -1 --null NULL --null -",
        input: b"id,line\n1,AC\n2,NULL\n3,AC\n",
        status: 0,
        output: COLUMN_BLOBS,
    },
    Run {
        line: "polytwkb pack --hex=bare --column line --precision -1",
        input: b"id,line\n1,AC\n2,\n3,A\n",
        status: 1,
        output: b"id,line\n1,12030704000200010402\n",
    },
    Run {
        line: "polytwkb unpack --hex --column line",
        input: b"id,line\n1,\\x12030704000200010402\n2,\n3,0102020402\n",
        status: 1,
        output: b"id,line\n1,AC\n2,\n",
    },
    Run {
        line: "polytwkb unpack --column line",
        input: COLUMN_BLOBS,
        status: 0,
        output: b"line\nAC\n\"\"\nAC\n",
    },
];

const OUT_OF_MEMORY: &[u8] = b"polytwkb: out of memory\n";

// Whether this may be the result of a run. Whichever growth is refused, a run ends as with enough
// memory, or with status 4 after a prefix of its output, and with as much of its line as standard
// error has memory for. If there was no memory for the words, nothing was run.
fn may_end_so(run: &Run, ended: &Ended) -> bool {
    match ended.status {
        Some(4) => {
            run.output.starts_with(&ended.output) & OUT_OF_MEMORY.starts_with(&ended.errors)
        }
        Some(found) => found == run.status && ended.output.as_slice() == run.output,
        None => ended.output.is_empty(),
    }
}

// Whether a run has one of its allowed results. Its writer has room for the whole output, and so
// no write fails.
fn ends_short(alloc: Global, run: &Run) -> bool {
    match Vec::with_capacity(alloc, run.output.len()) {
        Ok(room) => may_end_so(
            run,
            &run_over(alloc, run.line, run.input, SOUND, AMPLE, room),
        ),
        Err(_) => true,
    }
}

#[test]
fn a_refused_growth_leaves_a_front_of_the_output(rt: HostRuntime) {
    for run in &RUNS {
        let is_front = ends_short(rt.alloc(), run);
        assert!(rt; is_front, "{}", run.line);
    }
}
