//! Lines in arrays, at the end and before other rows: written as a stream, or refused after whole
//! blobs.
use crate::arrays::POINTS;
use crate::arrays::writing::{
    LINE_OF_A_POINT, LINE_OF_ONE_PLACE, Writing, is_written, is_written_or_lacks,
};
use twkb_buffer::BufferPoint;

// An empty linestring, that of (1, 1) once with the precision 7, and that of (-2^62, 0) and
// (-2^62, 1) with the precision -8.
const FAR_LINES: &[u8] =
    b"\x02\x10\xe2\x00\x01\x02\x02\xf2\x00\x02\xff\xff\xff\xff\xff\xff\xff\xff\x7f\x00\x00\x02";

static LINES: [Writing; 8] = [
    Writing {
        name: "a line with an id that no collection has",
        rows: &[(0, 2, 2, None, 0), (0, 2, 1, Some(7), 0)],
        row_count: 2,
        points: &POINTS,
        point_count: 3,
        room: 24,
        ends: (1, 9, 1),
        given: (1, 7, 7),
        blobs: LINE_OF_ONE_PLACE,
    },
    Writing {
        name: "a line with a precision above the greatest",
        rows: &[(0, 2, 2, None, 0), (0, 2, 1, None, 8)],
        row_count: 2,
        points: &POINTS,
        point_count: 3,
        room: 24,
        ends: (1, 11, 1),
        given: (1, 7, 7),
        blobs: LINE_OF_ONE_PLACE,
    },
    Writing {
        name: "a line with a precision below the least",
        rows: &[(0, 2, 2, None, 0), (0, 2, 1, None, -9)],
        row_count: 2,
        points: &POINTS,
        point_count: 3,
        room: 24,
        ends: (1, 11, 1),
        given: (1, 7, 7),
        blobs: LINE_OF_ONE_PLACE,
    },
    Writing {
        name: "a line below a line",
        rows: &[(0, 2, 2, None, 0), (1, 2, 1, None, 0)],
        row_count: 2,
        points: &POINTS,
        point_count: 3,
        room: 24,
        ends: (1, 5, 1),
        given: (0, 0, 0),
        blobs: LINE_OF_ONE_PLACE,
    },
    Writing {
        name: "a ring that no polygon has",
        rows: &[(0, 2, 2, None, 0), (0, 8, 1, None, 0)],
        row_count: 2,
        points: &POINTS,
        point_count: 3,
        room: 24,
        ends: (1, 5, 1),
        given: (1, 7, 7),
        blobs: LINE_OF_ONE_PLACE,
    },
    Writing {
        name: "a line with more points than are left",
        rows: &[(0, 2, 2, None, 0), (0, 2, 2, None, 0)],
        row_count: 2,
        points: &POINTS,
        point_count: 3,
        room: 24,
        ends: (1, 71, 1),
        given: (1, 7, 7),
        blobs: LINE_OF_ONE_PLACE,
    },
    Writing {
        name: "the second coordinate of one of five points out of range",
        rows: &[(0, 2, 1, None, 0), (0, 2, 5, None, 0)],
        row_count: 2,
        points: &[
            BufferPoint { x: 1, y: 1 },
            BufferPoint { x: 1, y: 1 },
            BufferPoint {
                x: 1,
                y: -(1 << 62) - 1,
            },
            BufferPoint { x: 1, y: 1 },
            BufferPoint { x: 1, y: 1 },
            BufferPoint { x: 1, y: 1 },
        ],
        point_count: 6,
        room: 24,
        ends: (1, 26, 1),
        given: (1, 5, 5),
        blobs: LINE_OF_A_POINT,
    },
    Writing {
        name: "lines of no point, of one and of two that are the farthest",
        rows: &[(0, 2, 0, None, 0), (0, 2, 1, None, 7), (0, 2, 2, None, -8)],
        row_count: 3,
        points: &[
            BufferPoint { x: 1, y: 1 },
            BufferPoint {
                x: -(1 << 62),
                y: 0,
            },
            BufferPoint {
                x: -(1 << 62),
                y: 1,
            },
        ],
        point_count: 3,
        room: 24,
        ends: (0, 0, 0),
        given: (3, 22, 22),
        blobs: FAR_LINES,
    },
];

#[test]
fn lines_are_written_or_refused_after_whole_blobs(rt: HostRuntime) {
    for writing in &LINES {
        let is_right = is_written(rt.alloc(), writing);
        assert!(rt; is_right, "{}", writing.name);
    }
}

// Run with each growth refused in turn (`make hostile`) too.
#[test]
fn a_refused_growth_at_a_line_is_want_of_memory_after_whole_blobs(rt: HostRuntime) {
    for writing in &LINES {
        let is_told = is_written_or_lacks(rt.alloc(), writing);
        assert!(rt; is_told, "{}", writing.name);
    }
}

// ---- lines and points in arrays, written by what comes after them

// The linestring of (1, 1) twice and the point (5, 5).
const LINE_AND_POINT: &[u8] = b"\x02\x00\x02\x02\x02\x00\x00\x01\x00\x0a\x0a";

// The same linestring and a collection of that point.
const LINE_AND_COLLECTION: &[u8] = b"\x02\x00\x02\x02\x02\x00\x00\x07\x00\x01\x01\x00\x0a\x0a";

// A collection of the same linestring, and the linestring of (5, 5) once.
const COLLECTION_AND_LINE: &[u8] = b"\x07\x00\x01\x02\x00\x02\x02\x02\x00\x00\x02\x00\x01\x0a\x0a";

// The point (1, 1).
const POINT: &[u8] = b"\x01\x00\x02\x02";

static FOLLOWED: [Writing; 10] = [
    Writing {
        name: "a line before a point",
        rows: &[(0, 2, 2, None, 0), (0, 1, 1, None, 0)],
        row_count: 2,
        points: &POINTS,
        point_count: 3,
        room: 24,
        ends: (0, 0, 0),
        given: (2, 11, 11),
        blobs: LINE_AND_POINT,
    },
    Writing {
        name: "a line before a collection",
        rows: &[(0, 2, 2, None, 0), (0, 7, 0, None, 0), (1, 1, 1, None, 0)],
        row_count: 3,
        points: &POINTS,
        point_count: 3,
        room: 24,
        ends: (0, 0, 0),
        given: (2, 14, 14),
        blobs: LINE_AND_COLLECTION,
    },
    Writing {
        name: "a line in a collection before a line",
        rows: &[(0, 7, 0, None, 0), (1, 2, 2, None, 0), (0, 2, 1, None, 0)],
        row_count: 3,
        points: &POINTS,
        point_count: 3,
        room: 24,
        ends: (0, 0, 0),
        given: (2, 15, 15),
        blobs: COLLECTION_AND_LINE,
    },
    Writing {
        name: "a line before a point below it",
        rows: &[(0, 2, 2, None, 0), (1, 1, 1, None, 0)],
        row_count: 2,
        points: &POINTS,
        point_count: 3,
        room: 24,
        ends: (1, 5, 1),
        given: (0, 0, 0),
        blobs: LINE_AND_POINT,
    },
    Writing {
        name: "a point before a root of no kind",
        rows: &[(0, 1, 1, None, 0), (0, 9, 0, None, 0)],
        row_count: 2,
        points: &POINTS,
        point_count: 3,
        room: 24,
        ends: (1, 4, 1),
        given: (1, 4, 4),
        blobs: POINT,
    },
    Writing {
        name: "a line before nothing",
        rows: &[(0, 2, 2, None, 0)],
        row_count: 1,
        points: &POINTS,
        point_count: 2,
        room: 24,
        ends: (0, 0, 0),
        given: (1, 7, 7),
        blobs: LINE_OF_ONE_PLACE,
    },
    Writing {
        name: "a line before a point that is left over",
        rows: &[(0, 2, 2, None, 0)],
        row_count: 1,
        points: &POINTS,
        point_count: 3,
        room: 24,
        ends: (1, 72, 1),
        given: (0, 0, 0),
        blobs: LINE_OF_ONE_PLACE,
    },
    Writing {
        name: "two lines before a point that is left over",
        rows: &[(0, 2, 1, None, 0), (0, 2, 1, None, 0)],
        row_count: 2,
        points: &POINTS,
        point_count: 3,
        room: 24,
        ends: (1, 72, 2),
        given: (1, 5, 5),
        blobs: LINE_OF_A_POINT,
    },
    Writing {
        name: "one byte too few for a line before a point",
        rows: &[(0, 2, 2, None, 0), (0, 1, 1, None, 0)],
        row_count: 2,
        points: &POINTS,
        point_count: 3,
        room: 6,
        ends: (5, 0, 0),
        given: (0, 0, 11),
        blobs: LINE_AND_POINT,
    },
    Writing {
        name: "one byte too few for a point after a line",
        rows: &[(0, 2, 2, None, 0), (0, 1, 1, None, 0)],
        row_count: 2,
        points: &POINTS,
        point_count: 3,
        room: 10,
        ends: (5, 0, 0),
        given: (1, 7, 11),
        blobs: LINE_AND_POINT,
    },
];

#[test]
fn what_comes_after_a_line_decides_whether_it_is_written(rt: HostRuntime) {
    for writing in &FOLLOWED {
        let is_right = is_written(rt.alloc(), writing);
        assert!(rt; is_right, "{}", writing.name);
    }
}

// Run with each growth refused in turn (`make hostile`) too.
#[test]
fn a_refused_growth_before_a_next_row_is_want_of_memory_after_whole_blobs(rt: HostRuntime) {
    for writing in &FOLLOWED {
        let is_told = is_written_or_lacks(rt.alloc(), writing);
        assert!(rt; is_told, "{}", writing.name);
    }
}
