//! Arrays written as streams.
use crate::arrays::{BLOBS, Given, POINTS, ROWS, row_of};
use std::alloc::Global;
use twkb_arrays::{NO_PRECISION, write_arrays};
use twkb_buffer::{BufferPoint, BufferReport};
use twkb_convert::Style;
use twkb_geom::Limits;

// A writing: rows, points, room, style, and what is expected.
#[derive(Clone, Copy)]
pub(crate) struct Writing {
    pub(crate) name: &'static str,
    pub(crate) rows: &'static [Given],
    pub(crate) row_count: usize,
    pub(crate) points: &'static [BufferPoint],
    pub(crate) point_count: usize,
    pub(crate) room: usize,
    // status, reason and place
    pub(crate) ends: (u32, u32, u64),
    // blobs and bytes in the output, and bytes of all
    pub(crate) given: (u64, u64, u64),
    // what the output begins with, or more
    pub(crate) blobs: &'static [u8],
}

// The most rows of a test.
const MOST: usize = 4;

// The most bytes of a test.
const MOST_BYTES: usize = 24;

const TWO: (u64, u64, u64) = (2, 18, 18);

const FIRST: (u64, u64, u64) = (1, 11, 11);

// The linestring of (1, 1) twice, and that of (1, 1) once.
pub(crate) const LINE_OF_ONE_PLACE: &[u8] = b"\x02\x00\x02\x02\x02\x00\x00";

pub(crate) const LINE_OF_A_POINT: &[u8] = b"\x02\x00\x01\x02\x02";

// The linestring from (1, 1) to (5, 5) twice, with its size and its box.
const FULL_LINES: &[u8] =
    b"\x02\x03\x09\x02\x08\x02\x08\x02\x02\x02\x08\x08\x02\x03\x09\x02\x08\x02\x08\x02\x02\x02\x08\x08";

// A `static`, as a `const` would be a part of each function that names it, and be proved there with all its rows.
static WRITINGS: [Writing; 12] = [
    Writing {
        name: "all room",
        rows: &ROWS,
        row_count: 4,
        points: &POINTS,
        point_count: 3,
        room: 24,
        ends: (0, 0, 0),
        given: TWO,
        blobs: BLOBS,
    },
    Writing {
        name: "just enough room",
        rows: &ROWS,
        row_count: 4,
        points: &POINTS,
        point_count: 3,
        room: 18,
        ends: (0, 0, 0),
        given: TWO,
        blobs: BLOBS,
    },
    Writing {
        name: "one byte too few",
        rows: &ROWS,
        row_count: 4,
        points: &POINTS,
        point_count: 3,
        room: 17,
        ends: (5, 0, 0),
        given: (1, 11, 18),
        blobs: BLOBS,
    },
    Writing {
        name: "no room",
        rows: &ROWS,
        row_count: 4,
        points: &POINTS,
        point_count: 3,
        room: 0,
        ends: (5, 0, 0),
        given: (0, 0, 18),
        blobs: BLOBS,
    },
    Writing {
        name: "nothing",
        rows: &[],
        row_count: 0,
        points: &[],
        point_count: 0,
        room: 0,
        ends: (0, 0, 0),
        given: (0, 0, 0),
        blobs: BLOBS,
    },
    Writing {
        name: "a point left over",
        rows: &ROWS,
        row_count: 3,
        points: &POINTS,
        point_count: 3,
        room: 24,
        ends: (1, 72, 3),
        given: (0, 0, 0),
        blobs: BLOBS,
    },
    Writing {
        name: "points without rows",
        rows: &[],
        row_count: 0,
        points: &POINTS,
        point_count: 3,
        room: 24,
        ends: (1, 72, 0),
        given: (0, 0, 0),
        blobs: BLOBS,
    },
    Writing {
        name: "too few points",
        rows: &ROWS,
        row_count: 4,
        points: &POINTS,
        point_count: 2,
        room: 24,
        ends: (1, 71, 3),
        given: FIRST,
        blobs: BLOBS,
    },
    Writing {
        name: "no such kind",
        rows: &[(0, 2, 2, None, 0), (0, 9, 0, None, 0)],
        row_count: 2,
        points: &POINTS,
        point_count: 3,
        room: 24,
        ends: (1, 4, 1),
        given: (1, 7, 7),
        blobs: LINE_OF_ONE_PLACE,
    },
    Writing {
        name: "a precision that is missing",
        rows: &[(0, 2, 2, None, 0), (0, 2, 1, None, NO_PRECISION)],
        row_count: 2,
        points: &POINTS,
        point_count: 3,
        room: 24,
        ends: (1, 12, 1),
        given: (1, 7, 7),
        blobs: LINE_OF_ONE_PLACE,
    },
    Writing {
        name: "a first row below a root",
        rows: &[(1, 2, 2, None, 0)],
        row_count: 1,
        points: &POINTS,
        point_count: 3,
        room: 24,
        ends: (1, 5, 0),
        given: (0, 0, 0),
        blobs: BLOBS,
    },
    Writing {
        name: "a coordinate out of range",
        rows: &[(0, 2, 1, None, 0), (0, 2, 2, None, 0)],
        row_count: 2,
        points: &[
            BufferPoint { x: 1, y: 1 },
            BufferPoint { x: 1, y: 1 },
            BufferPoint { x: 1 << 62, y: 1 },
        ],
        point_count: 3,
        room: 24,
        ends: (1, 26, 1),
        given: (1, 5, 5),
        blobs: LINE_OF_A_POINT,
    },
];

// The numbers of rows and points of the geometries in the output: those before the next root.
fn taken_by(writing: &Writing) -> (u64, u64) {
    let (mut roots, mut rows, mut points) = (0, 0, 0);
    for row in &writing.rows[..writing.row_count.min(writing.rows.len())] {
        if row.0 == 0 {
            roots = u64::saturating_add(roots, 1);
        }
        if roots > writing.given.0 {
            return (rows, points);
        }
        rows = u64::saturating_add(rows, 1);
        points = u64::saturating_add(points, row.2);
    }
    if writing.given.0 == 0 {
        (0, 0)
    } else {
        (rows, points)
    }
}

fn report_of(writing: &Writing) -> BufferReport {
    let (rows, points) = taken_by(writing);
    BufferReport {
        status: writing.ends.0,
        reason: writing.ends.1,
        place: writing.ends.2,
        // the one point that is out of range is its row's second
        text_offset: u64::from(writing.ends.1 == 26),
        done: writing.given.0,
        sent: writing.given.1,
        needed: writing.given.2,
        taken: rows,
        taken_points: points,
        reserved_1: 0,
        reserved_2: 0,
    }
}

// A byte that no call writes.
const UNWRITTEN: u8 = 0xA5;

// Writes the first rows and points of a test into the first bytes of an output.
fn write(alloc: Global, writing: &Writing, style: Style, output: &mut [u8]) -> BufferReport {
    let mut rows = [row_of(&(9, 9, 9, None, 9)); MOST];
    for (row, given) in rows.iter_mut().zip(writing.rows) {
        *row = row_of(given);
    }
    let row_count = writing.row_count.min(MOST);
    let point_count = writing.point_count.min(writing.points.len());
    let room = writing.room.min(output.len());
    write_arrays(
        alloc,
        &rows[..row_count],
        &writing.points[..point_count],
        &mut output[..room],
        &mut [],
        Limits::standard(),
        style,
        false,
    )
}

// Whether the output has the first bytes of these blobs, and then only bytes that no call writes.
fn has_sent(output: &[u8], blobs: &[u8], sent: usize) -> bool {
    for (at, byte) in output.iter().enumerate() {
        let right = match blobs.get(at) {
            Some(due) if at < sent => *due,
            _ => UNWRITTEN,
        };
        if *byte != right {
            return false;
        }
    }
    sent <= blobs.len()
}

// Whether a writing gives its report and its blobs, and leaves the bytes after them as they were.
pub(crate) fn is_written(alloc: Global, writing: &Writing) -> bool {
    let mut output = [UNWRITTEN; MOST_BYTES];
    let report = write(alloc, writing, Style::Plain, &mut output);
    report == report_of(writing) && has_sent(&output, writing.blobs, writing.given.1 as usize)
}

#[test]
fn arrays_are_written_as_a_stream(rt: HostRuntime) {
    for writing in &WRITINGS {
        let is_right = is_written(rt.alloc(), writing);
        assert!(rt; is_right, "{}", writing.name);
    }
}

// Whether two lines in the full style, of which the first has a root after it, have their sizes and
// their boxes.
fn are_full(alloc: Global) -> bool {
    let lines = Writing {
        name: "two lines",
        rows: &[(0, 2, 2, None, 0), (0, 2, 2, None, 0)],
        row_count: 2,
        points: &[
            BufferPoint { x: 1, y: 1 },
            BufferPoint { x: 5, y: 5 },
            BufferPoint { x: 1, y: 1 },
            BufferPoint { x: 5, y: 5 },
        ],
        point_count: 4,
        room: MOST_BYTES,
        ends: (0, 0, 0),
        given: (2, 24, 24),
        blobs: FULL_LINES,
    };
    let mut output = [UNWRITTEN; MOST_BYTES];
    let report = write(alloc, &lines, Style::Full, &mut output);
    report == report_of(&lines) && has_sent(&output, FULL_LINES, 24)
}

#[test]
fn a_full_stream_has_sizes_and_boxes(rt: HostRuntime) {
    assert!(rt; are_full(rt.alloc()));
}

// Whether a writing ends as it should, or lacks memory after whole blobs.
pub(crate) fn is_written_or_lacks(alloc: Global, writing: &Writing) -> bool {
    let mut output = [UNWRITTEN; MOST_BYTES];
    let report = write(alloc, writing, Style::Plain, &mut output);
    if report == report_of(writing) {
        return true;
    }
    let is_whole = (report.sent == 0)
        | (report.sent == 2)
        | (report.sent == 4)
        | (report.sent == 5)
        | (report.sent == 7)
        | (report.sent == 10)
        | (report.sent == 11);
    (report.status == 4) & is_whole && has_sent(&output, writing.blobs, report.sent as usize)
}

// Run with each growth refused in turn (`make hostile`) too.
#[test]
fn a_refused_growth_is_want_of_memory_after_whole_blobs(rt: HostRuntime) {
    for writing in &WRITINGS {
        let is_told = is_written_or_lacks(rt.alloc(), writing);
        assert!(rt; is_told, "{}", writing.name);
    }
}
