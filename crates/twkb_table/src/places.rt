//! The verdict on a record by what its row's place allows: the id, the precision and the number of
//! points.
ghost use Rattle.std.specs.Prelude.{◌≡◌, List, length, IfOk, IfErr, MatchOption};
ghost use Rattle.twkb_points.specs.Point.{Point};
ghost use Rattle.twkb_table.specs.Judged.{HasId, LacksId, HasPrecision, LacksPrecision, AllowsCount, RefusesCount};
ghost use Rattle.twkb_table.specs.Judged.{rule_reason, place_seen};

use crate::decimal::{parse_optional_id, parse_optional_precision};
use crate::reason::RowReason;
use twkb_polyline::PolyReason;
use twkb_tree::row_checks::{Refusal, count_refusal, id_refusal, precision_refusal};
use twkb_tree::{Kind, RowPlace};

/// The reason to refuse a record whose row is refused for `refusal`. Points that are out of range
/// or too many are refused at byte 0 of their text. Takes no memory.
#[inline(always)]
pub fn reason_of(refusal: Refusal) -> RowReason
    ensures { result ≡ rule_reason refusal }
{
    match refusal {
        Refusal::BadPlace => RowReason::BadPlace,
        Refusal::TooDeep => RowReason::TooDeep,
        Refusal::TooManyNodes => RowReason::TooManyNodes,
        Refusal::BadId => RowReason::BadId,
        Refusal::IdNotAllowed => RowReason::IdNotAllowed,
        Refusal::MixedIds => RowReason::MixedIds,
        Refusal::BadPrecision => RowReason::BadPrecision,
        Refusal::PrecisionMissing => RowReason::PrecisionMissing,
        Refusal::PrecisionNotAllowed => RowReason::PrecisionNotAllowed,
        Refusal::PointsNotAllowed => RowReason::PolylineNotAllowed,
        Refusal::PointCount => RowReason::PointCount,
        Refusal::CoordinateRange => RowReason::Polyline(0, PolyReason::Range),
        Refusal::TooManyPoints => RowReason::Polyline(0, PolyReason::TooMany),
    }
}

// The reason why a row of this kind at this place may not have `count` points of its own, whatever
// the limits are; `None` if it may.
#[inline(always)]
pub(crate) fn refused_count(row_place: &RowPlace, kind: Kind, count: usize) -> Option<RowReason>
    ensures judged { (points : List Point) → length points ≡ count
        → MatchOption result (AllowsCount (place_seen row_place.now) kind points)
        (RefusesCount (place_seen row_place.now) kind points) }
{
    Some(reason_of(count_refusal(row_place, kind, count)?))
}

// Reads the id of a row of this kind at this place, `None` if the field is empty; an `Err` is the
// reason to refuse the field.
#[inline(always)]
pub(crate) fn read_id(
    row_place: &RowPlace,
    kind: Kind,
    field: &[u8],
) -> Result<Option<i64>, RowReason>
    ensures read { IfOk result (λ id. HasId (place_seen row_place.now) kind field.now id) }
    ensures refused { IfErr result (λ reason. LacksId (place_seen row_place.now) kind field.now reason) }
{
    let Some(id) = parse_optional_id(field) else {
        return Err(RowReason::BadId);
    };
    match id_refusal(row_place, kind, id.is_some()) {
        None => Ok(id),
        Some(refusal) => Err(reason_of(refusal)),
    }
}

// Reads the precision of a row at this place, `None` if the field is empty; an `Err` is the reason
// to refuse the field.
#[inline(always)]
pub(crate) fn read_precision(row_place: &RowPlace, field: &[u8]) -> Result<Option<i8>, RowReason>
    ensures read { IfOk result (λ precision. HasPrecision (place_seen row_place.now) field.now precision) }
    ensures refused { IfErr result (λ reason. LacksPrecision (place_seen row_place.now) field.now reason) }
{
    let Some(precision) = parse_optional_precision(field) else {
        return Err(RowReason::BadPrecision);
    };
    match precision_refusal(row_place, precision.is_some()) {
        None => Ok(precision),
        Some(refusal) => Err(reason_of(refusal)),
    }
}
