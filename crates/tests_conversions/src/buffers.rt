//! Conversions from a buffer to a buffer. The blob is the one that PostGIS writes of the line
//! from (1, 1) to (5, 5); the places of faults are those of docs/FORMATS.md.
use crate::worked::{WORKED, Worked};
use std::alloc::Global;
use twkb_buffer::{
    BufferPoint, BufferReport, Conversion, fill, fill_points, fill_polyline, measure, put_reason,
    put_version, round_numbers,
};
use twkb_convert::{Style, VERSION};
use twkb_geom::Limits;

const TABLE: &[u8] = b"depth,kind,id,precision,polyline\n0,linestring,,0,AAGG\n";

const BLOB: &[u8] = b"\x02\x00\x02\x02\x02\x08\x08";

// A conversion, its input, how much of it that is by its own measure, and its whole output.
#[derive(Clone, Copy)]
struct Converted {
    what: Conversion,
    input: &'static [u8],
    taken: u64,
    output: &'static [u8],
}

const CONVERTED: [Converted; 5] = [
    Converted {
        what: Conversion::Pack(Style::Plain),
        input: TABLE,
        taken: 2,
        output: BLOB,
    },
    Converted {
        what: Conversion::Unpack,
        input: BLOB,
        taken: 7,
        output: TABLE,
    },
    Converted {
        what: Conversion::Show,
        input: BLOB,
        taken: 7,
        output: b"0 0 linestring 0 00 7 2\n",
    },
    Converted {
        what: Conversion::Geojson,
        input: BLOB,
        taken: 7,
        output: b"{\"type\":\"LineString\",\"coordinates\":[[1,1],[5,5]]}\n",
    },
    Converted {
        what: Conversion::Headers,
        input: BLOB,
        taken: 7,
        output: b"\0\0\0\0\0\0\0\0\x07\0\0\0\0\0\0\0\x02\0\0\0\0\0\0\0\0\0\0\0\x02\0\0\0",
    },
];

// The report of a call that did all, which wrote `sent` items and took no input by its measure.
fn report_of(sent: u64, needed: u64) -> BufferReport {
    BufferReport {
        status: 0,
        reason: 0,
        place: 0,
        text_offset: 0,
        done: 1,
        sent,
        needed,
        taken: 0,
        taken_points: 0,
        reserved_1: 0,
        reserved_2: 0,
    }
}

// Whether the output is at the start of a larger room, whose last two bytes are unchanged, and is
// measured.
fn is_converted(alloc: Global, row: &Converted) -> bool {
    let limits = Limits::standard();
    let length = row.output.len() as u64;
    let due = BufferReport {
        taken: row.taken,
        ..report_of(length, length)
    };
    let mut room = [0u8; 60];
    let is_filled = fill(alloc, row.what, row.input, &mut room, limits) == due;
    let measured = BufferReport { sent: 0, ..due };
    is_filled
        && room.starts_with(row.output)
        && room.ends_with(b"\0\0")
        && measure(alloc, row.what, row.input, limits) == measured
}

#[test]
fn an_input_is_converted_and_measured(rt: HostRuntime) {
    for row in &CONVERTED {
        let is_right = is_converted(rt.alloc(), row);
        assert!(rt; is_right, "{} bytes", row.output.len());
    }
}

// Whether a table of 54 bytes does not fit a room of 40, which is filled with a prefix of it.
fn has_a_front(alloc: Global) -> bool {
    let mut room = [0u8; 40];
    let limits = Limits::standard();
    let due = BufferReport {
        status: 5,
        done: 0,
        ..report_of(40, 54)
    };
    fill(alloc, Conversion::Unpack, BLOB, &mut room, limits) == due && TABLE.starts_with(&room)
}

#[test]
fn a_small_room_has_a_front(rt: HostRuntime) {
    assert!(rt; has_a_front(rt.alloc()));
}

const TWO_ROWS: &[u8] =
    b"depth,kind,id,precision,polyline\n0,linestring,,0,AAGG\n0,linestring,,0,AAGG\n";

const TWO_BLOBS: &[u8] = b"\x02\x00\x02\x02\x02\x08\x08\x02\x00\x02\x02\x02\x08\x08";

// The first ten bytes of them.
const CUT_BLOBS: &[u8] = b"\x02\x00\x02\x02\x02\x08\x08\x02\x00\x02";

// A conversion of two lines, the room for its output, and the output's length; and how many of the
// lines are whole in the room, and how much of the input they are.
const TAKEN: [(Conversion, &[u8], usize, u64, u64, u64); 7] = [
    (Conversion::Pack(Style::Plain), TWO_ROWS, 6, 14, 0, 0),
    (Conversion::Pack(Style::Plain), TWO_ROWS, 7, 14, 1, 2),
    (Conversion::Pack(Style::Plain), TWO_ROWS, 13, 14, 1, 2),
    (Conversion::Unpack, TWO_BLOBS, 53, 75, 0, 0),
    (Conversion::Unpack, TWO_BLOBS, 54, 75, 1, 7),
    (Conversion::Show, TWO_BLOBS, 47, 48, 1, 7),
    (Conversion::Show, CUT_BLOBS, 0, 24, 0, 0),
];

// Whether all these conversions fill their rooms, and take the geometries that are whole there.
fn take_the_whole_ones(alloc: Global) -> bool {
    let mut are_right = true;
    for (what, input, size, needed, done, taken) in TAKEN {
        let mut room = [0u8; 80];
        let report = fill(
            alloc,
            what,
            input,
            &mut room[..size.min(80)],
            Limits::standard(),
        );
        let due = BufferReport {
            status: 5,
            done,
            taken,
            ..report_of(size as u64, needed)
        };
        are_right = are_right & (report == due);
    }
    are_right
}

#[test]
fn what_is_taken_are_the_geometries_whole_in_the_room(rt: HostRuntime) {
    assert!(rt; take_the_whole_ones(rt.alloc()));
}

// A table whose point is cut: it has only a latitude.
const HALF_POINT: &[u8] = b"depth,kind,id,precision,polyline\n0,point,,0,A\n";

// Whether an input is refused after no output, for this reason at this place.
fn is_refused(
    alloc: Global,
    what: Conversion,
    input: &[u8],
    reason: u32,
    place: u64,
    text_offset: u64,
) -> bool {
    let due = BufferReport {
        status: 1,
        reason,
        place,
        text_offset,
        done: 0,
        ..report_of(0, 0)
    };
    fill(alloc, what, input, &mut [], Limits::standard()) == due
}

#[test]
fn a_refusal_tells_its_place(rt: HostRuntime) {
    let alloc = rt.alloc();
    assert!(rt; is_refused(alloc, Conversion::Pack(Style::Full), HALF_POINT, 25, 2, 1));
    assert!(rt; is_refused(alloc, Conversion::Show, &BLOB[..6], 41, 6, 0));
}

// The points of the line.
const POINTS: [BufferPoint; 2] = [BufferPoint { x: 1, y: 1 }, BufferPoint { x: 5, y: 5 }];

// Whether the polyline of the line is at the start of a room, and its points at the start of another.
fn is_polyline(alloc: Global) -> bool {
    let mut text = [0u8; 5];
    let mut points = [BufferPoint { x: 0, y: 0 }; 3];
    let is_text = fill_polyline(alloc, &POINTS, &mut text) == report_of(4, 4);
    let are_points = fill_points(alloc, b"AAGG", &mut points) == report_of(2, 2);
    is_text & are_points & text.starts_with(b"AAGG") & points.starts_with(&POINTS)
}

#[test]
fn points_become_a_polyline_and_it_the_points(rt: HostRuntime) {
    assert!(rt; is_polyline(rt.alloc()));
}

// The bits of a double, a precision, and its coordinate, by Python's `struct` and `decimal`.
const ROUNDED: [(u64, i32, i64); 17] = [
    (0x3fc3333333333333, 1, 2), // 0.15, which is a little less than that
    (0x3fc3333333333332, 1, 1), // the double before it
    (0x3f904c059210385c, 5, 1592), // 0.015915
    (0x4340000000000000, 0, 9_007_199_254_740_992), // 2^53, also the nearest to 2^53 + 1/2
    (0x4360000000000042, -3, 36_028_797_018_965), // nearest to 36028797018964500, as the next one is
    (0x43600000000000bf, -3, 36_028_797_018_965), // and to 36028797018965500, but it is odd
    (0x3fd0000000000000, 1, 3), // 0.25
    (0xbfd0000000000000, 1, -3), // -0.25
    (0x4004000000000000, 0, 3), // 2.5
    (0xbfe0000000000000, 0, -1), // -0.5
    (0x8000000000000000, 7, 0), // -0
    (0x0000000000000001, 7, 0), // 5e-324, the least
    (0x401dca8eb463497b, 5, 744_781), // 7.44781
    (0x401dca8eb463497b, 7, 74_478_100), // 7.44781
    (0x41a1e1a300000000, -8, 2), // 150000000
    (0x43cfffffffffffff, 0, (1 << 62) - 512), // the greatest double below 2^62
    (0xc3d0000000000000, 0, -4611686018427387904), // -2^62
];

// Whether all numbers are rounded, each into a room of its own.
fn are_rounded() -> bool {
    let mut are_right = true;
    for (number, precision, due) in ROUNDED {
        let mut unit = [7];
        let is_done = round_numbers(&[number], precision, &mut unit) == report_of(1, 1);
        are_right = are_right & is_done & (unit[0] == due);
    }
    are_right
}

// Whether numbers are rounded up to one of these bits, which has no coordinate.
fn is_refused_number(number: u64) -> bool {
    let mut units = [7, 7, 7];
    let due = BufferReport {
        status: 1,
        reason: 26,
        place: 1,
        done: 0,
        ..report_of(1, 1)
    };
    round_numbers(&[0x3ff8000000000000, number, 0], 0, &mut units) == due && units == [2, 7, 7]
}

#[test]
fn doubles_become_the_nearest_coordinates(rt: HostRuntime) {
    let infinity = is_refused_number(0xfff0000000000000);
    let no_number = is_refused_number(0x7ff8000000000000);
    let too_large = is_refused_number(0x43d0000000000000); // 2^62
    assert!(rt; are_rounded() & infinity & no_number & too_large);
}

// Whether a worked conversion writes its output and reports whether the input is refused later,
// or runs out of memory after a prefix of the output. The input comes in one piece.
fn fills_or_lacks(alloc: Global, worked: &Worked) -> bool {
    let mut room = [0u8; 190];
    let limits = Limits::standard();
    let report = fill(alloc, worked.what, worked.input, &mut room, limits);
    let is_front = match room.get(..report.sent as usize) {
        Some(sent) => worked.output.starts_with(sent),
        None => false,
    };
    let is_whole = report.sent == worked.output.len() as u64;
    let is_told = match report.status {
        0 => is_whole & worked.stopped.is_none(),
        1 => is_whole & worked.stopped.is_some(),
        status => status == 4,
    };
    is_front & is_told
}

// Run with each growth refused in turn (`make hostile`) too.
#[test]
fn a_refused_growth_is_want_of_memory_after_the_first_bytes_of_the_output(rt: HostRuntime) {
    for worked in &WORKED {
        let is_told = fills_or_lacks(rt.alloc(), worked);
        assert!(rt; is_told, "{}", worked.name);
    }
}

// Whether a reason and the version are returned, each followed by a zero byte: the reason as
// docs/FORMATS.md has it.
fn has_texts() -> bool {
    let mut reason = [9u8; 10];
    let mut left = [9u8; 17];
    let mut version = [9u8; 32];
    (put_reason(41, &mut reason) == 9)
        & (put_reason(72, &mut left) == 16)
        & (left == *b"points left over\0")
        & (put_version(&mut version) == VERSION.len())
        & (reason == *b"truncated\0")
        & version.starts_with(VERSION.as_bytes())
}

#[test]
fn a_reason_and_the_version_are_told(rt: HostRuntime) {
    assert!(rt; has_texts());
}
