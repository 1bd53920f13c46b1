//! Points of a list, and members of a multipoint, many at once.
ghost use Rattle.std.specs.Prelude.{◌≡◌, ◌≤◌, ◌+◌, length};
ghost use Rattle.twkb_tree.specs.declared.limits.TheConstants.{POINTS_CAP, NODES_CAP};
ghost use Rattle.twkb_tree.specs.Rows.{row_points};
ghost use Rattle.twkb_tree.specs.RowGrowth.{EndsInLine};
ghost use Rattle.twkb_flat.specs.Taking.{EndsInMember};
ghost use Rattle.twkb_body.specs.Outline.{ids_of};
ghost use Rattle.twkb_body.specs.Running.{TakesRow, GoesOn, TakesMembers};

use crate::member_ids::MemberIds;
use crate::points::front_point;
use std::alloc::AllocError;
use twkb_flat::Flat;
use twkb_num::{BLOCK, Leb128, varint_ends};
use twkb_points::{
    APART, FAR_APART, NUMBERS_AT_ONCE, POINTS_AT_ONCE, Pt, eight_points, two_points,
};

/// Points that were read at the start of bytes and appended to a form.
#[derive(Clone, Copy, Debug, PartialEq, Eq)]
pub struct Taken {
    /// How many bytes they had.
    pub used: usize,
    /// The last of them, or if none was taken the point before.
    pub position: Pt,
}

// The most bytes of two points whose numbers are short, four bytes each.
const NEAR: usize = 16;

// How many points are taken at once from a block.
const POINTS: u64 = POINTS_AT_ONCE as u64;

/// Appends to the last row the points at the start of the bytes, at most `most`, each by its steps
/// from the one before, the first from `from`. The last row must be a linestring's or a ring's, and
/// all rows together must have at most 2^24 points with `most` more. Stops before a point that is
/// cut, too long or out of range. Returns what was taken, and how many of `most` are left. Takes
/// memory; after an `Err` nothing is known of the rows.
// One function: with the choice of the next step in a function of its own, it took up to 6 in 1000
// more instructions.
#[inline(always)]
pub fn take_row(
    flat: &mut Flat,
    from: Pt,
    bytes: &[u8],
    most: u64,
) -> Result<(Taken, u64), AllocError>
    requires line { EndsInLine flat.old }
    requires room { length (row_points flat.old) + most ≤ POINTS_CAP }
    ensures { TakesRow flat.old from bytes.now most result flat.new }
{
    let (mut used, mut position, mut left) = (0, from, most);
    // `pair_bytes` is how many bytes the last two points had, or twice those of the last one
    let (mut pair_bytes, mut next_look) = (0, 0);
    while left > 0 {
        let rest = &bytes[used..];
        // a block holds no eight points whose numbers have four bytes each
        if pair_bytes < NEAR && used >= next_look && left >= POINTS && rest.len() >= BLOCK {
            let (taken, after) = take_eights(flat, position, rest, left)?;
            (used, position, left) = (used + taken.used, taken.position, after);
            next_look = used + if taken.used == 0 { FAR_APART } else { APART };
            continue;
        }
        if pair_bytes <= NEAR && left > 1 {
            if let Some((first, second, width)) = two_points::<Leb128>(position, rest, 0) {
                flat.add_two(first, second)?;
                (used, position, left) = (used + width, second, left - 2);
                pair_bytes = width;
                continue;
            }
        }
        let Some((next, width)) = front_point(position, rest) else {
            break;
        };
        flat.add_point(next)?;
        (used, position, left) = (used + width, next, left - 1);
        pair_bytes = width * 2;
    }
    Ok((Taken { used, position }, left))
}

// Appends points as `take_row` does, and under the same conditions, but eight at a time, and only
// as long as `eight_points` reads them and eight or more of `most` are left, so maybe none.
#[inline(never)]
fn take_eights(
    flat: &mut Flat,
    from: Pt,
    bytes: &[u8],
    most: u64,
) -> Result<(Taken, u64), AllocError>
    requires line { EndsInLine flat.old }
    requires room { length (row_points flat.old) + most ≤ POINTS_CAP }
    ensures { GoesOn flat.old from bytes.now most result flat.new }
{
    let mut used = 0;
    let mut position = from;
    let mut left = most;
    let mut ends: u64 = 0;
    while left >= POINTS {
        let rest = &bytes[used..];
        if ends.count_ones() < NUMBERS_AT_ONCE {
            ends = varint_ends(rest);
        }
        let Some(eight) = eight_points::<Leb128>(position, rest, ends) else {
            break;
        };
        flat.add_points(&eight.points)?;
        left -= POINTS;
        position = eight.last;
        used += eight.used;
        ends = eight.ends;
    }
    Ok((Taken { used, position }, left))
}

/// Appends the points at the start of the bytes, at most `most`, as members of a multipoint: rows
/// at `depth`, each point by its steps from the one before, the first from `from`, and each with
/// the next id of `ids`, which then leaves `ids`, if members have ids. The last row must be such a
/// member at `depth`, with an id exactly if they have ids, and with `most` more there must be at
/// most 2^20 rows and 2^24 points. Stops before a point that is cut, too long or out of range, or
/// has no id left. Returns what was taken, and how many of `most` are left. Takes memory; after an
/// `Err` nothing is known of the rows.
pub fn take_members(
    flat: &mut Flat,
    ids: &mut MemberIds,
    depth: u32,
    from: Pt,
    bytes: &[u8],
    most: u64,
) -> Result<(Taken, u64), AllocError>
    requires member { EndsInMember depth ids.old.has_ids flat.old }
    requires nodes { length flat.old + most ≤ NODES_CAP }
    requires points { length (row_points flat.old) + most ≤ POINTS_CAP }
    ensures taken { TakesMembers flat.old (ids_of ids.old) depth from bytes.now most result (ids_of ids.new) flat.new }
    ensures has { ids.new.has_ids ≡ ids.old.has_ids }
{
    let mut used = 0;
    let mut position = from;
    let mut left = most;
    while left > 0 && ids.has_needed_id() {
        let Some((to, count)) = front_point(position, &bytes[used..]) else {
            break;
        };
        flat.add_member(depth, ids.first(), to)?;
        ids.advance();
        left -= 1;
        position = to;
        used += count;
    }
    Ok((Taken { used, position }, left))
}
