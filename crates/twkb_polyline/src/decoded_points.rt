//! Decoding: from text to points.
ghost use Rattle.std.specs.Prelude.{◌≡◌, ℕ, ◌<◌, ◌≤◌, List, ◌++◌, length, drop, ◌⊎◌, ◌∷◌, [], IfOk};
ghost use Rattle.std.specs.Prelude.{IfErr, IfSome, IfNone, OnOk, OnErr, MatchResult};
ghost use Rattle.twkb_points.specs.Point.{Point, IsInRange};
ghost use Rattle.twkb_polyline.specs.Polyline.{AppendsDecoded, DecodesTo};
ghost use Rattle.twkb_polyline.specs.Fault.{IsNumberFault, IsPointFault, IsTextFault, IsRefused};
ghost use Rattle.twkb_polyline.specs.Reading.{HasPutOn, IsNumberAt, IsPointAt, IsRefusedFrom, IsShortOfMemory};

use crate::fault::{PolyFault, PolyReason};
use crate::whole::{only_point, whole_point};
use std::alloc::{AllocError, Global};
use std::cmp::min;
use twkb_num::{BLOCK, Five, Partial, Step, character_ends, unzigzag};
use twkb_points::{
    APART, Cursor, FAR_APART, NUMBERS_AT_ONCE, POINTS_AT_ONCE, PointTail, Pt, eight_points,
    two_points,
};

/// Decodes a polyline of at most `max` points (Encoded Polyline Algorithm Format). Refuses any
/// other text at its first fault. Takes memory for the points alone.
pub fn decode(alloc: Global, text: &[u8], max: u32) -> Result<Vec<Pt>, PolyFault>
    ensures decodes { IfOk result (λ points. DecodesTo text.now max points.items) }
    ensures refuses { IfErr result (IsRefused text.now max) }

    // each polyline gives its points, and each other text its fault, unless memory is refused
    ensures each_polyline { (ps : List Point) → DecodesTo text.now max ps →
        MatchResult result (λ points. points.items ≡ ps) (λ fault. fault ≡ PolyFault.Memory) }
    ensures each_fault { (offset : ℕ) (reason : PolyReason) → IsTextFault text.now max offset reason →
        MatchResult result (λ _. ⊥)
        (λ fault. (fault ≡ PolyFault.Memory) ⊎ (fault ≡ PolyFault.At offset reason)) }
{
    let mut points = Vec::new(alloc);
    decode_into(text, max, &mut points)?;
    Ok(points)
}

/// Decodes a polyline of at most `max` points, as `decode` does, and appends the points to a list,
/// whose earlier points are not read and do not count toward `max`. After an `Err` the list is as
/// it was. Takes memory for the points alone.
pub fn decode_into<L: PointTail>(text: &[u8], max: u32, points: &mut L) -> Result<(), PolyFault>
    ensures decodes { OnOk result (AppendsDecoded text.now max (L.held points.old) (L.held points.new)) }
    ensures refuses { IfErr result (IsRefused text.now max) }
    ensures same { OnErr result (L.held points.new ≡ L.held points.old) }
{
    let held = points.count();
    let result = read_points(text, max, points);
    if result.is_err() {
        points.cut(held);
    }
    result
}

/// Decodes a polyline of exactly one point; `None` for any other text. Takes no memory.
#[inline(always)]
pub fn decode_one(text: &[u8]) -> Option<Pt>
    ensures point { IfSome result (λ point. DecodesTo text.now 1 (point ∷ [])) }
    ensures no_other { IfNone result ((point : Point) → ¬ DecodesTo text.now 1 (point ∷ [])) }
{
    if let Some(point) = only_point(text) {
        return Some(point);
    }
    one_by_one(text)
}

// Decodes a polyline of exactly one point, of any length; `None` for any other text. Out of line:
// most texts of one point have eight to sixteen characters, and `only_point` reads them.
#[inline(never)]
fn one_by_one(text: &[u8]) -> Option<Pt>
    ensures point { IfSome result (λ point. DecodesTo text.now 1 (point ∷ [])) }
    ensures no_other { IfNone result ((point : Point) → ¬ DecodesTo text.now 1 (point ∷ [])) }
{
    if text.is_empty() {
        return None;
    }
    let mut cursor = Cursor::origin();
    let Ok((point, end)) = next_point(text, 0, &mut cursor) else {
        return None;
    };
    if end < text.len() {
        return None;
    }
    Some(point)
}

/// The number of points of a polyline of at most `max` points. Refuses any other text at its first
/// fault, as `decode` does. `room` is for up to 1024 points at a time, which replace those in it;
/// after the call nothing is known of them. Takes memory for these alone.
#[cold]
#[inline(never)]
pub fn count_points(text: &[u8], max: u32, room: &mut Vec<Pt>) -> Result<usize, PolyFault>
    ensures counts { IfOk result (λ count. (points : List Point) × DecodesTo text.now max points
        × (length points ≡ count)) }
    ensures refuses { IfErr result (IsRefused text.now max) }
{
    let mut cursor = Cursor::origin();
    let mut at = 0;
    let mut count = 0;
    let mut next_look = FIRST_LOOK;
    while at < text.len() {
        if at >= next_look && text.len() - at >= BLOCK {
            room.clear();
            let most = at_once(max as usize - count);
            let end = read_eights(text, at, most, &mut cursor, room)?;
            count += room.len();
            next_look = end + apart(end > at);
            at = end;
            continue;
        }
        one_more(count, max, at)?;
        let (_, end) = next_point(text, at, &mut cursor)?;
        count += 1;
        at = end;
    }
    Ok(count)
}

// The most points that `count_points` decodes at once.
const COUNTED_AT_ONCE: usize = 1024;

// At most `COUNTED_AT_ONCE` of the points that may be left.
#[inline(always)]
fn at_once(left: usize) -> usize
    ensures { result ≤ left }
{
    min(left, COUNTED_AT_ONCE)
}

// Decodes a text as `decode_into` does, but after an `Err` the points read before it stay in the
// list.
fn read_points<L: PointTail>(text: &[u8], max: u32, points: &mut L) -> Result<(), PolyFault>
    ensures decodes { OnOk result (AppendsDecoded text.now max (L.held points.old) (L.held points.new)) }
    ensures refuses { IfErr result (IsRefused text.now max) }
    ensures grown { (more : List Point) × (L.held points.new ≡ L.held points.old ++ more) }
{
    let held = points.count();
    let mut cursor = Cursor::origin();
    let mut at = 0;
    let mut next_look = FIRST_LOOK;
    while at < text.len() {
        let read = points.count() - held;
        let room = max as usize - read;
        if at >= next_look && text.len() - at >= BLOCK {
            let end = read_eights(text, at, room, &mut cursor, points)?;
            next_look = end + apart(end > at);
            at = end;
            continue;
        }
        // the first point of a text is mostly far
        if at > 0 && room >= 2 {
            if let Some((first, second, used)) = two_points::<Five>(cursor.place(), text, at) {
                cursor.go(second);
                points.put_all(&[first, second])?;
                at += used;
                continue;
            }
        }
        one_more(read, max, at)?;
        let (point, end) = next_point(text, at, &mut cursor)?;
        points.put(point)?;
        at = end;
    }
    Ok(())
}

// Refuses one more point after `read` points, as `TooMany` at the offset `at`, if `read` is `max`;
// it must not be above `max`.
#[inline(always)]
fn one_more(read: usize, max: u32, at: usize) -> Result<(), PolyFault>
    requires { read ≤ max }
    ensures few { IfOk result (λ _. read < max) }
    ensures full { IfErr result (λ fault. (read ≡ max) × (fault ≡ PolyFault.At at PolyReason.TooMany)) }
{
    if read == max as usize {
        return Err(PolyReason::TooMany.at(at));
    }
    Ok(())
}

// Where blocks are first searched for: after the first point, whose numbers are mostly large.
const FIRST_LOOK: usize = 1;

// The number of characters from the end of a search for blocks to the next search: `APART` if it
// has found points, and otherwise `FAR_APART`.
#[inline(always)]
fn apart(has_found: bool) -> usize
    ensures some { 0 < result }
    ensures few { result ≤ 256 }
{
    if has_found { APART } else { FAR_APART }
}

// Fast path: appends points from `start` on, which must not be past the end of the text, eight at a
// time and at most `room`, as long as `eight_points` finds them, and moves the cursor to the last
// one. Returns the offset where the text goes on. If memory is refused, the points read before stay
// in the list, and nothing is known of the cursor.
#[inline(never)]
fn read_eights<L: PointTail>(
    text: &[u8],
    start: usize,
    room: usize,
    cursor: &mut Cursor,
    points: &mut L,
) -> Result<usize, AllocError>
    requires { start ≤ length text.now }
    ensures read { IfOk result (λ end. HasPutOn text.now start room cursor.old (L.held points.old)
        (L.held points.new) cursor.new end) }
    ensures refused { OnErr result (IsShortOfMemory text.now start room cursor.old) }
    ensures grown { (more : List Point) × (L.held points.new ≡ L.held points.old ++ more) }
{
    let mut at = start;
    let mut left = room;
    let mut ends: u64 = 0;
    while left >= POINTS_AT_ONCE {
        let rest = &text[at..];
        if ends.count_ones() < NUMBERS_AT_ONCE {
            ends = character_ends(rest);
        }
        let Some(eight) = eight_points::<Five>(cursor.place(), rest, ends) else {
            break;
        };
        points.put_all(&eight.points)?;
        cursor.go(eight.last);
        left -= POINTS_AT_ONCE;
        at += eight.used;
        ends = eight.ends;
    }
    Ok(at)
}

// Reads the point whose latitude begins at `start`, where text must be left, as its step from the
// cursor. Moves the cursor to the point, and returns the point and the offset where the text goes
// on. An `Err` is the point's first fault, at its offset in the text; then the cursor stays.
#[inline(always)]
fn next_point(text: &[u8], start: usize, cursor: &mut Cursor) -> Result<(Pt, usize), PolyFault>
    requires { start < length text.now }
    ensures read { IfOk result (λ r. IsPointAt text.now start cursor.old r.0 r.1) }
    ensures in_range { IfOk result (λ r. IsInRange r.0) }
    ensures moved { IfOk result (λ r. cursor.new ≡ r.0) }
    ensures refused { IfErr result (IsRefusedFrom start (IsPointFault cursor.old (drop start text.now))) }
{
    match whole_point(text, start, cursor) {
        Some(read) => Ok(read),
        None => point_at(text, start, cursor),
    }
}

// Does what `next_point` does, number by number, so that a fault is found at its place. Out of
// line: only points that the fast path refuses get here.
#[cold]
fn point_at(text: &[u8], start: usize, cursor: &mut Cursor) -> Result<(Pt, usize), PolyFault>
    requires { start < length text.now }
    ensures read { IfOk result (λ r. IsPointAt text.now start cursor.old r.0 r.1) }
    ensures in_range { IfOk result (λ r. IsInRange r.0) }
    ensures moved { IfOk result (λ r. cursor.new ≡ r.0) }
    ensures refused { IfErr result (IsRefusedFrom start (IsPointFault cursor.old (drop start text.now))) }
{
    let (dy, middle) = number_at(text, start)?;
    if !cursor.y_in_range(dy) {
        return Err(PolyReason::Range.at(start));
    }
    if middle == text.len() {
        return Err(PolyReason::Half.at(middle));
    }
    let (dx, end) = number_at(text, middle)?;
    match cursor.add(dx, dy) {
        Some(point) => Ok((point, end)),
        None => Err(PolyReason::Range.at(middle)),
    }
}

// Reads the signed number that begins at `start`, where text must be left, and returns the number
// and the offset where the text goes on. An `Err` is the number's first fault, at its offset in the
// text.
fn number_at(text: &[u8], start: usize) -> Result<(i64, usize), PolyFault>
    requires { start < length text.now }
    ensures read { IfOk result (λ r. IsNumberAt text.now start r.0 r.1) }
    ensures refused { IfErr result (IsRefusedFrom start (IsNumberFault (drop start text.now))) }
{
    let mut partial = Partial::<Five>::new();
    for at in start..text.len() {
        match partial.step(text[at]) {
            Step::More => {}
            Step::Done {
                value,
                shortest: true,
            } => return Ok((unzigzag(value), at + 1)),
            Step::Done { .. } => return Err(PolyReason::Padded.at(start)),
            Step::BadUnit => return Err(PolyReason::BadChar.at(at)),
            Step::TooLong => return Err(PolyReason::TooLong.at(start)),
        }
    }
    Err(PolyReason::Cut.at(start))
}
