//! Lines whose points are read in blocks, eight at a time, and byte by byte: made ones, on both
//! sides of each threshold.
use std::alloc::{AllocError, Global};
use twkb_blob::{BlobFault, Session};
use twkb_geom::{Flat, Limits, PointId, Work};
use twkb_num::{Leb128, NumBuf, zigzag};

// Appends the shortest varint of a step.
fn put_step(bytes: &mut Vec<u8>, step: i64) -> Result<(), AllocError> {
    bytes.extend_from_slice(NumBuf::put::<Leb128>(zigzag(step)).as_slice())
}

// A line that is made: so many points, below 128, the first at this x and at 0. So many steps, the
// first, lead far along x, and the others less far or farther; each leads three times as far down.
#[derive(Clone, Copy)]
struct Made {
    count: u8,
    start: i64,
    first_steps: u8,
    first_step: i64,
    step: i64,
}

impl Made {
    // A line whose steps are all the same.
    fn even(count: u8, start: i64, step: i64) -> Made {
        Made {
            count,
            start,
            first_steps: 0,
            first_step: step,
            step,
        }
    }

    // How far along x the point at this place is from the first.
    fn way(self, place: u32) -> i64 {
        let first = place.min(u32::from(self.first_steps));
        let others = i64::from(place.saturating_sub(first)).wrapping_mul(self.step);
        i64::from(first)
            .wrapping_mul(self.first_step)
            .wrapping_add(others)
    }
}

// The line as a blob.
fn made_line(alloc: Global, made: Made) -> Result<Vec<u8>, AllocError> {
    let mut bytes = Vec::new(alloc);
    bytes.extend_from_slice(&[2, 0, made.count])?;
    let mut x = made.start;
    let mut y = 0;
    for place in 0..made.count {
        put_step(&mut bytes, x)?;
        put_step(&mut bytes, y)?;
        x = if place < made.first_steps {
            made.first_step
        } else {
            made.step
        };
        y = x.wrapping_mul(-3);
    }
    Ok(bytes)
}

// Whether a form has the points of the line, and each is where it was made.
fn has_line(flat: &Flat, made: Made) -> bool {
    let mut work = Work::new();
    let mut are_there = flat.point_count() == u32::from(made.count);
    for place in 0..flat.point_count() {
        let point = flat.point(PointId(place), &mut work);
        are_there &= point.x() == made.start.wrapping_add(made.way(place));
        are_there &= point.y() == made.way(place).wrapping_mul(-3);
    }
    are_there
}

// Why a session refuses bytes that are fed one by one, if it does.
fn fault_bytewise(session: &mut Session, bytes: &[u8]) -> Option<BlobFault> {
    for byte in bytes {
        if let Err(fault) = session.feed_flat(&[*byte]) {
            return Some(fault);
        }
    }
    None
}

// What is read of a line: points out of range, points where they were made, or others.
#[derive(Clone, Copy, PartialEq, Eq)]
enum Reading {
    Refused,
    Same,
    Other,
}

// Whether the line is read so, in one piece and byte by byte, with the same fault if it is refused;
// or memory is refused.
fn is_read(alloc: Global, made: Made, wanted: Reading) -> bool {
    let Ok(line) = made_line(alloc, made) else {
        return true;
    };
    let mut whole = Session::new(alloc, Limits::largest());
    let mut bytewise = Session::new(alloc, Limits::largest());
    let fault = whole.feed_flat(&line).err();
    let is_same = fault == fault_bytewise(&mut bytewise, &line);
    let has_both = has_line(whole.flat(), made) & has_line(bytewise.flat(), made);
    let reading = match fault {
        Some(_) => Reading::Refused,
        None if has_both => Reading::Same,
        None => Reading::Other,
    };
    drop(whole);
    drop(bytewise);
    is_same & (reading == wanted)
}

// Whether lines of each count on both sides of what a block holds, eight points and their
// multiples, are read as they were made.
fn counts_are_read(alloc: Global, start: i64, step: i64) -> bool {
    let mut all = true;
    for count in 0..60 {
        all &= is_read(alloc, Made::even(count, start, step), Reading::Same);
    }
    all
}

// Numbers of one to seven bytes: those of up to four are found in blocks.
#[test]
fn points_are_read_in_blocks_as_byte_by_byte(rt: HostRuntime) {
    let alloc = rt.alloc();
    let short = counts_are_read(alloc, 5, 20) & counts_are_read(alloc, -300, 50);
    let middle = counts_are_read(alloc, 5, 3_000) & counts_are_read(alloc, -300, 500_000);
    let long = counts_are_read(alloc, 5, 30_000_000) & counts_are_read(alloc, 7, 60_000_000);
    assert!(rt; short & middle & long & counts_are_read(alloc, 0, 1_000_000_000_000));
}

// Whether lines are read as they were made whose first steps, 0 to 59, are of one length, and the
// others of another.
fn changes_are_read(alloc: Global, first_step: i64, step: i64) -> bool {
    let mut all = true;
    for first_steps in 0..60 {
        let made = Made {
            count: 120,
            start: 5,
            first_steps,
            first_step,
            step,
        };
        all &= is_read(alloc, made, Reading::Same);
    }
    all
}

// Up to 472 bytes of numbers of four bytes, or 590 of five, before short ones: blocks are looked
// for in vain, and again 256 bytes after that. Then the short ones first.
#[test]
fn near_points_after_far_ones_are_read_as_byte_by_byte(rt: HostRuntime) {
    let alloc = rt.alloc();
    let four = changes_are_read(alloc, 30_000_000, 20)
        & changes_are_read(alloc, -30_000_000, 3_000);
    let five = changes_are_read(alloc, 200_000_000, 20);
    assert!(rt; four & five & changes_are_read(alloc, 20, 30_000_000));
}

// Blocks are read from points up to 2^61 away, and eight steps further.
#[test]
fn points_are_read_in_blocks_up_to_the_inner_points_border(rt: HostRuntime) {
    let alloc = rt.alloc();
    let up = counts_are_read(alloc, (1 << 61) - 1_000_000_000, 40_000_000);
    assert!(rt; up & counts_are_read(alloc, 1_000_000_000 - (1 << 61), -40_000_000));
}

// Whether a line to the edge of the range is refused from the point on that leaves it, after
// however many points that comes.
fn is_refused_past_the_range(alloc: Global, edge: i64, step: i64) -> bool {
    let mut all = true;
    for inside in 1..30 {
        let way = (i64::from(inside) - 1).wrapping_mul(step);
        let start = edge.wrapping_sub(way);
        all &= is_read(alloc, Made::even(inside, start, step), Reading::Same);
        all &= is_read(alloc, Made::even(inside + 1, start, step), Reading::Refused);
        all &= is_read(
            alloc,
            Made::even(inside + 20, start, step),
            Reading::Refused,
        );
    }
    all
}

#[test]
fn a_point_past_the_range_is_refused_as_byte_by_byte(rt: HostRuntime) {
    let alloc = rt.alloc();
    let up = is_refused_past_the_range(alloc, (1 << 62) - 1, 40);
    assert!(rt; up & is_refused_past_the_range(alloc, -(1 << 62), -40_000));
}
