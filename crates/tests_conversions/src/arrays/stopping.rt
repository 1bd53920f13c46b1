//! Arrays written as a stream, with its ends, up to the first geometry without room.
use crate::arrays::{BLOBS, Given, POINTS, ROWS, UNWRITTEN_END, has_ends, row_of};
use std::alloc::Global;
use twkb_arrays::write_arrays;
use twkb_buffer::BufferReport;
use twkb_convert::Style;
use twkb_geom::Limits;

// A writing of the worked rows: the room for bytes and ends, whether it stops, and the report.
struct Stopping {
    name: &'static str,
    room: usize,
    end_room: usize,
    stops: bool,
    status: u32,
    // blobs and bytes in the output, and bytes of all that were made
    given: (u64, u64, u64),
    // the rows and points that the blobs in the output took
    taken: (u64, u64),
}

static STOPPINGS: [Stopping; 7] = [
    Stopping {
        name: "all room",
        room: 24,
        end_room: 3,
        stops: false,
        status: 0,
        given: (2, 18, 18),
        taken: (4, 3),
    },
    Stopping {
        name: "no ends",
        room: 18,
        end_room: 0,
        stops: true,
        status: 0,
        given: (2, 18, 18),
        taken: (4, 3),
    },
    Stopping {
        name: "too few ends",
        room: 24,
        end_room: 1,
        stops: false,
        status: 5,
        given: (1, 11, 18),
        taken: (3, 1),
    },
    Stopping {
        name: "room for the second alone",
        room: 10,
        end_room: 2,
        stops: false,
        status: 5,
        given: (0, 0, 18),
        taken: (0, 0),
    },
    Stopping {
        name: "stops at once",
        room: 10,
        end_room: 2,
        stops: true,
        status: 5,
        given: (0, 0, 11),
        taken: (0, 0),
    },
    Stopping {
        name: "stops at the second",
        room: 17,
        end_room: 2,
        stops: true,
        status: 5,
        given: (1, 11, 18),
        taken: (3, 1),
    },
    Stopping {
        name: "stops for want of ends",
        room: 24,
        end_room: 1,
        stops: true,
        status: 5,
        given: (1, 11, 18),
        taken: (3, 1),
    },
];

fn report_of(stopping: &Stopping) -> BufferReport {
    BufferReport {
        status: stopping.status,
        reason: 0,
        place: 0,
        text_offset: 0,
        done: stopping.given.0,
        sent: stopping.given.1,
        needed: stopping.given.2,
        taken: stopping.taken.0,
        taken_points: stopping.taken.1,
        reserved_1: 0,
        reserved_2: 0,
    }
}

// Whether a writing gives its report, and writes the blobs that this counts and their ends.
fn is_written(alloc: Global, stopping: &Stopping) -> bool {
    let mut rows = [row_of(&(9, 9, 9, None, 9)); 4];
    for (row, given) in rows.iter_mut().zip(&ROWS) {
        *row = row_of(given);
    }
    let mut output = [0; 24];
    let mut ends = [UNWRITTEN_END; 3];
    let (room, end_room) = (stopping.room.min(24), stopping.end_room.min(3));
    let report = write_arrays(
        alloc,
        &rows,
        &POINTS,
        &mut output[..room],
        &mut ends[..end_room],
        Limits::standard(),
        Style::Plain,
        stopping.stops,
    );
    let end_count = if end_room == 0 { 0 } else { stopping.given.0 };
    let sent = (stopping.given.1 as usize).min(BLOBS.len());
    (report == report_of(stopping)) & has_ends(&ends, end_count) && output[..sent] == BLOBS[..sent]
}

#[test]
fn a_writing_gives_ends_and_stops_where_it_is_asked_to(rt: HostRuntime) {
    for stopping in &STOPPINGS {
        let is_right = is_written(rt.alloc(), stopping);
        assert!(rt; is_right, "{}", stopping.name);
    }
}

// Two lines, of which the first is written without a flattened geometry.
const LINES: [Given; 2] = [(0, 2, 2, None, 0), (0, 2, 1, None, 0)];

// Whether a writing of two lines into six bytes, of which the first blob has seven, stops after
// the first line.
fn stops_at_the_first_line(alloc: Global) -> bool {
    let rows = [row_of(&LINES[0]), row_of(&LINES[1])];
    let mut output = [0; 6];
    let report = write_arrays(
        alloc,
        &rows,
        &POINTS,
        &mut output,
        &mut [],
        Limits::standard(),
        Style::Plain,
        true,
    );
    (
        report.status,
        report.done,
        report.needed,
        report.taken,
        report.taken_points,
    ) == (5, 0, 7, 0, 0)
}

#[test]
fn a_writing_stops_at_a_line_that_is_written_from_the_array(rt: HostRuntime) {
    assert!(rt; stops_at_the_first_line(rt.alloc()));
}
