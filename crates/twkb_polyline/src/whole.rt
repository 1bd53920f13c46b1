//! Fast paths: points whose numbers are complete in the text.
ghost use Rattle.std.specs.Prelude.{◌≡◌, ◌+◌, ◌<◌, ◌≤◌, true, false, Some, IfSome, IfNone, get_or, length};
ghost use Rattle.twkb_num.specs.Alphabet.{five_group};
ghost use Rattle.twkb_points.specs.Point.{IsInRange, origin};
ghost use Rattle.twkb_polyline.specs.Reading.{IsNumberAt, IsPointAt, IsBegun};

use twkb_num::{
    CHARACTER_BITS, FIRST_CHARACTER, FIRST_OPEN, LAST_CHARACTER, LAST_END, first_two, two_in_text,
    unzigzag,
};
use twkb_points::{Cursor, Pt};

// The shift of a thirteenth group, the last that a number may have.
const LAST_SHIFT: u32 = 12 * CHARACTER_BITS;

// Reads the point whose latitude begins at `start`, which must not be past the end of the text, as
// its step from the cursor, moves the cursor to the point, and returns the point and the offset
// where it ends. `None` proves nothing about the text, and the cursor stays.
#[inline(always)]
pub(crate) fn whole_point(text: &[u8], start: usize, cursor: &mut Cursor) -> Option<(Pt, usize)>
    requires { start ≤ length text.now }
    ensures read { IfSome result (λ r. IsPointAt text.now start cursor.old r.0 r.1) }
    ensures in_range { IfSome result (λ r. IsInRange r.0) }
    ensures moved { IfSome result (λ r. cursor.new ≡ r.0) }
    ensures unmoved { IfNone result (cursor.new ≡ cursor.old) }
{
    if let Some(far) = far_point(text, start, cursor) {
        return Some(far);
    }
    let (dy, middle) = whole_number(text, start)?;
    let (dx, end) = whole_number(text, middle)?;
    let point = cursor.add(dx, dy)?;
    Some((point, end))
}

// Fast path: does what `whole_point` does, for a point of eight to sixteen characters, as a first
// point mostly has.
#[inline(always)]
fn far_point(text: &[u8], start: usize, cursor: &mut Cursor) -> Option<(Pt, usize)>
    requires { start ≤ length text.now }
    ensures read { IfSome result (λ r. IsPointAt text.now start cursor.old r.0 r.1) }
    ensures in_range { IfSome result (λ r. IsInRange r.0) }
    ensures moved { IfSome result (λ r. cursor.new ≡ r.0) }
    ensures unmoved { IfNone result (cursor.new ≡ cursor.old) }
{
    let (dy, dx, count) = first_two(&text[start..])?;
    let point = cursor.add_near(dx, dy)?;
    Some((point, start + count))
}

// Reads the point whose two numbers are a whole text, of eight to sixteen characters. `None` proves
// nothing about the text.
#[inline(always)]
pub(crate) fn only_point(text: &[u8]) -> Option<Pt>
    ensures read { IfSome result (λ point. IsPointAt text.now 0 origin point (length text.now)) }
    ensures in_range { IfSome result IsInRange }
{
    let (dy, dx) = two_in_text(text)?;
    let point = Cursor::origin().add(dx, dy)?;
    Some(point)
}

// The group of a character that says that more follow; `None` for any other byte. It tests the
// byte's range: with `Five::from_unit` instead, `pack` of multipolygons takes 1 in 1000 more
// instructions.
#[inline(always)]
fn open_group(unit: u8) -> Option<u64>
    ensures { IfSome result (λ group. five_group unit ≡ Some (group, true)) }
{
    match unit {
        FIRST_OPEN..=LAST_CHARACTER => Some(u64::from(unit - FIRST_OPEN)),
        _ => None,
    }
}

// The group of a character that ends a number; `None` for any other byte.
#[inline(always)]
fn last_group(unit: u8) -> Option<u64>
    ensures { IfSome result (λ group. five_group unit ≡ Some (group, false)) }
{
    match unit {
        FIRST_CHARACTER..=LAST_END => Some(u64::from(unit - FIRST_CHARACTER)),
        _ => None,
    }
}

// Reads the signed number that begins at `start`, and returns the number and the offset where it
// ends. `None` proves nothing about the text.
#[inline(always)]
fn whole_number(text: &[u8], start: usize) -> Option<(i64, usize)>
    ensures { IfSome result (λ r. IsNumberAt text.now start r.0 r.1) }
{
    let unit = *text.get(start)?;
    let Some(first) = open_group(unit) else {
        let only = last_group(unit)?;
        return Some((unzigzag(only), start + 1));
    };
    later_number(text, start, first)
}

// Does what `whole_number` does for a number of two characters or more: the one at `start` must
// have the group `first` and say that more follow.
#[inline(always)]
fn later_number(text: &[u8], start: usize, first: u64) -> Option<(i64, usize)>
    requires within { start < length text.now }
    requires goes_on { five_group (get_or text.now start 0) ≡ Some (first, true) }
    ensures { IfSome result (λ r. IsNumberAt text.now start r.0 r.1) }
{
    let unit = *text.get(start + 1)?;
    let Some(second) = open_group(unit) else {
        let last = last_group(unit)?;
        if last == 0 {
            return None;
        }
        return Some((unzigzag(first + (last << CHARACTER_BITS)), start + 2));
    };
    long_number(text, start, first + (second << CHARACTER_BITS))
}

// Does what `whole_number` does for a number of three characters or more: the first two must say
// that more follow, and their groups must make the number `begun`.
#[inline(always)]
fn long_number(text: &[u8], start: usize, begun: u64) -> Option<(i64, usize)>
    requires { IsBegun text.now start (start + 2) begun }
    ensures { IfSome result (λ r. IsNumberAt text.now start r.0 r.1) }
{
    let mut value = begun;
    let mut shift = 2 * CHARACTER_BITS;
    for at in start + 2..text.len() {
        let unit = text[at];
        let Some(group) = open_group(unit) else {
            let last = last_group(unit)?;
            if last == 0 || last > u64::MAX >> shift {
                return None;
            }
            return Some((unzigzag(value + (last << shift)), at + 1));
        };
        if shift == LAST_SHIFT {
            return None;
        }
        value += group << shift;
        shift += CHARACTER_BITS;
    }
    None
}
