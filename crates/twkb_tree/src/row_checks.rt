//! The first rule that a row breaks at its place.
ghost use Rattle.std.specs.Prelude.{◌≡◌, ◌+◌, List, true, is_some, length, nat_le};
ghost use Rattle.twkb_points.specs.Point.{Point};
ghost use Rattle.twkb_tree.specs.Admits.{id_in_range, precision_in_range};
ghost use Rattle.twkb_tree.specs.Open.{row_of, child_of, field_checks, points_checks, row_checks, row_there};
ghost use Rattle.twkb_tree.specs.Refusal.{first_failed, place_checks, id_checks, precision_checks};
ghost use Rattle.twkb_tree.specs.Refusal.{count_checks};
ghost use Rattle.twkb_tree.specs.Rows.{Row};

use crate::geometry::{GREATEST_PRECISION, LEAST_PRECISION};
use crate::kind::Kind;
use crate::limits::Limits;
use crate::row_place::RowPlace;
use crate::row_rules::{
    count_fits, has_needed_precision, has_place, has_points, has_same_ids, id_allowed, is_geometry,
    nest_kept, precision_allowed,
};

/// Why a row may not come at its place, in the order of the checks (profile).
#[derive(Clone, Copy, Debug, PartialEq, Eq)]
pub enum Refusal {
    /// The row skips a depth, or a root is a ring, or its parent may not have this kind.
    BadPlace,
    /// The parent is a collection that is already inside as many collections as allowed.
    TooDeep,
    /// The geometry already has as many rows as allowed.
    TooManyNodes,
    /// The id is not in the range of an i64.
    BadId,
    /// A root or a ring has an id.
    IdNotAllowed,
    /// Only one of this row and its parent's first child has an id.
    MixedIds,
    /// The precision is not from -8 to 7.
    BadPrecision,
    /// A root or a member of a collection has no precision.
    PrecisionMissing,
    /// A row that is neither a root nor a member of a collection has a precision.
    PrecisionNotAllowed,
    /// A row of a kind without points has points.
    PointsNotAllowed,
    /// A coordinate is not from -2^62 to 2^62 - 1.
    CoordinateRange,
    /// The geometry has more points than allowed.
    TooManyPoints,
    /// A row of kind point has more than one point, or it is a member of a multipoint and has none.
    PointCount,
}

/// The first reason why a row of this kind may not come at this place: its parent, its nesting or
/// the number of rows; `None` if it may. Takes no memory.
#[inline(always)]
pub fn place_refusal(limits: &Limits, row_place: &RowPlace, kind: Kind) -> Option<Refusal>
    ensures { result ≡ first_failed (place_checks limits.now true (row_of row_place.now.parent)
        row_place.now.nodes row_place.now.depth kind) }
{
    if !has_place(row_place.parent, kind) {
        return Some(Refusal::BadPlace);
    }
    if !nest_kept(limits, row_place.parent, row_place.depth) {
        return Some(Refusal::TooDeep);
    }
    if limits.nodes() <= row_place.nodes {
        return Some(Refusal::TooManyNodes);
    }
    None
}

/// If `has_id`, the reason why a row of this kind at this place may not have an id; if not, the
/// reason why it may not be without one. `None` if it may. Takes no memory.
#[inline(always)]
pub fn id_refusal(row_place: &RowPlace, kind: Kind, has_id: bool) -> Option<Refusal>
    ensures { (r : Row) → r.kind ≡ kind → is_some r.id ≡ has_id → id_in_range r.id ≡ true
        → result ≡ first_failed (id_checks (row_of row_place.now.parent) (child_of row_place.now.parent) r) }
{
    if !id_allowed(row_place.parent, kind, has_id) {
        return Some(Refusal::IdNotAllowed);
    }
    if !has_same_ids(row_place.parent, has_id) {
        return Some(Refusal::MixedIds);
    }
    None
}

/// If `has_precision`, the reason why a row at this place may not have a precision, whose range is
/// not tested; if not, the reason why it may not be without one. `None` if it may. Takes no memory.
#[inline(always)]
pub fn precision_refusal(row_place: &RowPlace, has_precision: bool) -> Option<Refusal>
    ensures { (r : Row) → is_some r.precision ≡ has_precision → precision_in_range r.precision ≡ true
        → result ≡ first_failed (precision_checks (row_of row_place.now.parent) r) }
{
    if !has_needed_precision(row_place.parent, has_precision) {
        return Some(Refusal::PrecisionMissing);
    }
    if !precision_allowed(row_place.parent, has_precision) {
        return Some(Refusal::PrecisionNotAllowed);
    }
    None
}

/// The reason why a row of this kind at this place may not have `count` points of its own, whatever
/// the limits are; `None` if it may. Takes no memory.
#[inline(always)]
pub fn count_refusal(row_place: &RowPlace, kind: Kind, count: usize) -> Option<Refusal>
    ensures { (r : Row) → r.kind ≡ kind → length r.points ≡ count
        → result ≡ first_failed (count_checks (row_of row_place.now.parent) r) }
{
    if !count_fits(kind, is_geometry(row_place.parent), count) {
        return Some(Refusal::PointCount);
    }
    None
}

// Whether the limit on points leaves room for a row with `count` points at this place.
#[inline(always)]
fn has_room(limits: &Limits, row_place: &RowPlace, count: usize) -> bool
    ensures { result ≡ nat_le (row_place.now.points + count) limits.now.points }
{
    row_place.points <= limits.points() && count <= (limits.points() - row_place.points) as usize
}

/// The first reason why a row of this kind at this place may not have `count` points of its own,
/// within the limits; `None` if it may. No coordinate is looked at: the answer is that for points
/// in range. Takes no memory.
#[inline(always)]
pub fn points_refusal(
    limits: &Limits,
    row_place: &RowPlace,
    kind: Kind,
    count: usize,
) -> Option<Refusal>
    ensures { (r : Row) → r.kind ≡ kind → length r.points ≡ count
        → result ≡ first_failed (points_checks true limits.now row_place.now r) }
{
    if count != 0 && !has_points(kind) {
        return Some(Refusal::PointsNotAllowed);
    }
    if !has_room(limits, row_place, count) {
        return Some(Refusal::TooManyPoints);
    }
    count_refusal(row_place, kind, count)
}

// Whether a precision is from -8 to 7, or is missing.
#[inline(always)]
fn is_right_precision(precision: Option<i8>) -> bool
    ensures { result ≡ precision_in_range precision }
{
    match precision {
        None => true,
        Some(decimals) => LEAST_PRECISION <= decimals && decimals <= GREATEST_PRECISION,
    }
}

/// The first reason why a row of this kind, id and precision may not come at this place, within the
/// limits, whatever its points are; `None` if it may. Its depth is that of the place. Takes no
/// memory.
#[inline(always)]
pub fn field_refusal(
    limits: &Limits,
    row_place: &RowPlace,
    kind: Kind,
    id: Option<i64>,
    precision: Option<i8>,
) -> Option<Refusal>
    ensures { (points : List Point) → result ≡ first_failed
        (field_checks limits.now row_place.now (row_there row_place.now kind id precision points)) }
{
    if let Some(refusal) = place_refusal(limits, row_place, kind) {
        return Some(refusal);
    }
    if let Some(refusal) = id_refusal(row_place, kind, id.is_some()) {
        return Some(refusal);
    }
    if !is_right_precision(precision) {
        return Some(Refusal::BadPrecision);
    }
    precision_refusal(row_place, precision.is_some())
}

/// The first reason why a row with these fields and `count` points may not come at this place,
/// within the limits; `None` if it may. Its depth is that of the place. No coordinate is looked at:
/// the answer is that for points in range. Takes no memory.
#[inline(always)]
pub fn row_refusal(
    limits: &Limits,
    row_place: &RowPlace,
    kind: Kind,
    id: Option<i64>,
    precision: Option<i8>,
    count: usize,
) -> Option<Refusal>
    ensures { (points : List Point) → length points ≡ count → result ≡ first_failed
        (row_checks true limits.now row_place.now (row_there row_place.now kind id precision points)) }
{
    if let Some(refusal) = field_refusal(limits, row_place, kind, id, precision) {
        return Some(refusal);
    }
    points_refusal(limits, row_place, kind, count)
}
