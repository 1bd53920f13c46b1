//! Streams read into arrays of rows and points; and the rows, points and blobs that these tests
//! share with those of writing. The blobs are worked by hand from TWKB, the places of faults from
//! docs/FORMATS.md.
use std::alloc::Global;
use twkb_arrays::{BufferCounts, BufferRow, read_arrays};
use twkb_buffer::BufferPoint;
use twkb_geom::Limits;

mod lines;
mod stopping;
mod writing;

// A row: its depth, its kind, its number of points, its id and its precision.
type Given = (u32, u16, u64, Option<i64>, i8);

fn row_of(given: &Given) -> BufferRow {
    let (depth, kind, points, id, precision) = *given;
    let (has_id, id) = match id {
        Some(id) => (1, id),
        None => (0, 0),
    };
    BufferRow {
        id,
        points,
        depth,
        kind,
        has_id,
        precision,
    }
}

// A collection of the point (1, 1) with the id 7 and an empty linestring with the id -1, and the
// linestring from (1, 1) to (5, 5).
const BLOBS: &[u8] = b"\x07\x04\x02\x0e\x01\x01\x00\x02\x02\x02\x10\x02\x00\x02\x02\x02\x08\x08";

const ROWS: [Given; 4] = [
    (0, 7, 0, None, 0),
    (1, 1, 1, Some(7), 0),
    (1, 2, 0, Some(-1), 0),
    (0, 2, 2, None, 0),
];

const POINTS: [BufferPoint; 3] = [
    BufferPoint { x: 1, y: 1 },
    BufferPoint { x: 1, y: 1 },
    BufferPoint { x: 5, y: 5 },
];

// ---- streams read into arrays

// The most rows of a test.
const MOST: usize = 6;

// A row that no call writes.
const UNWRITTEN: Given = (9, 9, 9, None, 9);

// The rows at the start of an array.
fn rows_of(given: &[Given]) -> [BufferRow; MOST] {
    let mut rows = [row_of(&UNWRITTEN); MOST];
    for (row, given) in rows.iter_mut().zip(given) {
        *row = row_of(given);
    }
    rows
}

// A reading: the bytes, the room for rows, points and ends, whether it stops, and the counts.
struct Reading {
    name: &'static str,
    blobs: &'static [u8],
    row_room: usize,
    point_room: usize,
    end_room: usize,
    stops: bool,
    // status, reason and place
    ends: (u32, u32, u64),
    // geometries, rows and points in the arrays
    given: (u64, u64, u64),
    // rows and points of all that was read
    needed: (u64, u64),
}

const READINGS: [Reading; 14] = [
    Reading {
        name: "all room",
        blobs: BLOBS,
        row_room: 6,
        point_room: 5,
        end_room: 2,
        stops: false,
        ends: (0, 0, 0),
        given: (2, 4, 3),
        needed: (4, 3),
    },
    Reading {
        name: "just enough room",
        blobs: BLOBS,
        row_room: 4,
        point_room: 3,
        end_room: 2,
        stops: false,
        ends: (0, 0, 0),
        given: (2, 4, 3),
        needed: (4, 3),
    },
    Reading {
        name: "no bytes",
        blobs: b"",
        row_room: 0,
        point_room: 0,
        end_room: 2,
        stops: false,
        ends: (0, 0, 0),
        given: (0, 0, 0),
        needed: (0, 0),
    },
    Reading {
        name: "too few rows",
        blobs: BLOBS,
        row_room: 3,
        point_room: 5,
        end_room: 2,
        stops: false,
        ends: (5, 0, 0),
        given: (1, 3, 1),
        needed: (4, 3),
    },
    Reading {
        name: "too few points",
        blobs: BLOBS,
        row_room: 6,
        point_room: 2,
        end_room: 2,
        stops: false,
        ends: (5, 0, 0),
        given: (1, 3, 1),
        needed: (4, 3),
    },
    Reading {
        name: "no room for the first, but for the second",
        blobs: BLOBS,
        row_room: 2,
        point_room: 5,
        end_room: 2,
        stops: false,
        ends: (5, 0, 0),
        given: (0, 0, 0),
        needed: (4, 3),
    },
    Reading {
        name: "rooms of 0",
        blobs: BLOBS,
        row_room: 0,
        point_room: 0,
        end_room: 2,
        stops: false,
        ends: (5, 0, 0),
        given: (0, 0, 0),
        needed: (4, 3),
    },
    Reading {
        name: "cut",
        blobs: b"\x07\x04\x02\x0e\x01\x01\x00\x02\x02\x02\x10\x02\x00\x02\x02\x02\x08",
        row_room: 6,
        point_room: 5,
        end_room: 2,
        stops: false,
        ends: (1, 41, 17),
        given: (1, 3, 1),
        needed: (3, 1),
    },
    Reading {
        name: "cut, and no room",
        blobs: b"\x07\x04\x02\x0e\x01\x01\x00\x02\x02\x02\x10\x02\x00\x02\x02\x02\x08",
        row_room: 2,
        point_room: 1,
        end_room: 2,
        stops: false,
        ends: (5, 0, 0),
        given: (0, 0, 0),
        needed: (3, 1),
    },
    Reading {
        name: "no ends",
        blobs: BLOBS,
        row_room: 6,
        point_room: 5,
        end_room: 0,
        stops: false,
        ends: (0, 0, 0),
        given: (2, 4, 3),
        needed: (4, 3),
    },
    Reading {
        name: "too few ends",
        blobs: BLOBS,
        row_room: 6,
        point_room: 5,
        end_room: 1,
        stops: false,
        ends: (5, 0, 0),
        given: (1, 3, 1),
        needed: (4, 3),
    },
    Reading {
        name: "stops at once",
        blobs: BLOBS,
        row_room: 2,
        point_room: 5,
        end_room: 2,
        stops: true,
        ends: (5, 0, 0),
        given: (0, 0, 0),
        needed: (3, 1),
    },
    Reading {
        name: "stops at the second",
        blobs: BLOBS,
        row_room: 6,
        point_room: 2,
        end_room: 2,
        stops: true,
        ends: (5, 0, 0),
        given: (1, 3, 1),
        needed: (4, 3),
    },
    Reading {
        name: "may stop, and has room",
        blobs: BLOBS,
        row_room: 6,
        point_room: 5,
        end_room: 2,
        stops: true,
        ends: (0, 0, 0),
        given: (2, 4, 3),
        needed: (4, 3),
    },
];

// Where the first geometries of the worked blobs end.
fn end_after(done: u64) -> u64 {
    match done {
        0 => 0,
        1 => 11,
        _ => 18,
    }
}

fn counts_of(reading: &Reading) -> BufferCounts {
    BufferCounts {
        status: reading.ends.0,
        reason: reading.ends.1,
        place: reading.ends.2,
        done: reading.given.0,
        rows: reading.given.1,
        points: reading.given.2,
        needed_rows: reading.needed.0,
        needed_points: reading.needed.1,
        taken: end_after(reading.given.0),
        reserved_1: 0,
        reserved_2: 0,
    }
}

// Whether the first rows are those of the worked blobs, and the others are as no call writes them.
fn has_rows(rows: &[BufferRow], count: usize) -> bool {
    let due = rows_of(&ROWS);
    for (at, row) in rows.iter().enumerate() {
        let right = match due.get(at) {
            Some(given) if at < count => *given,
            _ => row_of(&UNWRITTEN),
        };
        if *row != right {
            return false;
        }
    }
    true
}

const UNWRITTEN_POINT: BufferPoint = BufferPoint { x: 9, y: 9 };

// Whether the first points are those of the worked blobs, and the others are as no call writes
// them.
fn has_points(points: &[BufferPoint], count: usize) -> bool {
    for (at, point) in points.iter().enumerate() {
        let right = match POINTS.get(at) {
            Some(given) if at < count => *given,
            _ => UNWRITTEN_POINT,
        };
        if *point != right {
            return false;
        }
    }
    true
}

// A place of ends that no call writes.
const UNWRITTEN_END: u64 = 9;

// Whether the first ends are those of the worked blobs, and the others are as no call writes them.
fn has_ends(ends: &[u64], count: u64) -> bool {
    for (at, end) in ends.iter().enumerate() {
        let done = (at as u64).saturating_add(1);
        let right = if done > count {
            UNWRITTEN_END
        } else {
            end_after(done)
        };
        if *end != right {
            return false;
        }
    }
    true
}

// Whether a reading gives its counts, writes the rows and points that they count, and leaves the
// places after them as they were.
fn is_read(alloc: Global, reading: &Reading) -> bool {
    let mut rows = [row_of(&UNWRITTEN); MOST];
    let mut points = [UNWRITTEN_POINT; 5];
    let row_room = reading.row_room.min(MOST);
    let mut ends = [UNWRITTEN_END; 3];
    let point_room = reading.point_room.min(5);
    let end_room = reading.end_room.min(3);
    let counts = read_arrays(
        alloc,
        reading.blobs,
        &mut rows[..row_room],
        &mut points[..point_room],
        &mut ends[..end_room],
        Limits::standard(),
        reading.stops,
    );
    let has_counts = counts == counts_of(reading);
    let end_count = if end_room == 0 { 0 } else { reading.given.0 };
    has_counts
        & has_ends(&ends, end_count)
        & has_rows(&rows, reading.given.1 as usize)
        & has_points(&points, reading.given.2 as usize)
}

#[test]
fn a_stream_is_read_into_arrays(rt: HostRuntime) {
    for reading in &READINGS {
        let is_right = is_read(rt.alloc(), reading);
        assert!(rt; is_right, "{}", reading.name);
    }
}
