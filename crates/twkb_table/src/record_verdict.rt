//! The verdict on a record after the first: a row, or the first reason to refuse it.
ghost use Rattle.std.specs.Prelude.{List, IfOk, IfErr};
ghost use Rattle.csv.specs.Records.{fields_of};
ghost use Rattle.twkb_tree.specs.Rows.{Row as TableRow};
ghost use Rattle.twkb_table.specs.Judged.{Judged, Accepted, Refused, JudgedByPlace, place_seen, StandsAfter};
ghost use Rattle.twkb_table.specs.Head.{JudgedBy};
ghost use Rattle.twkb_table.specs.Record.{record_seen};
ghost use Rattle.twkb_flat.specs.Rows.{row_with};
ghost use Rattle.twkb_flat.specs.Taking.{IfRefused};

use crate::decimal::parse_depth;
use crate::fields::{FIELD_COUNT, Fields, five_fields};
use crate::head::RowHead;
use crate::kind_word::parse_kind;
use crate::places::{read_id, read_precision, reason_of};
use crate::reason::RowReason;
use csv::ByteRecord;
use twkb_flat::{PointSource, Row, Stop};
use twkb_points::Pt;
use twkb_tree::row_checks::place_refusal;
use twkb_tree::{Kind, Limits, OpenRow, RowPlace};

// Judges a row of this kind by its place, its id and its precision. Returns the row, whose points
// are still to be read from `text`, or the first reason to refuse it.
#[inline(always)]
fn judge_at<'a>(
    limits: &Limits,
    row_place: &RowPlace,
    kind: Kind,
    id_field: &[u8],
    precision_field: &[u8],
    text: &'a [u8],
) -> Result<RowHead<'a>, RowReason>
    ensures { JudgedBy (JudgedByPlace limits.now (place_seen row_place.now) kind id_field.now
        precision_field.now text.now) result }
{
    if let Some(refusal) = place_refusal(limits, row_place, kind) {
        return Err(reason_of(refusal));
    }
    let id = read_id(row_place, kind, id_field)?;
    let precision = read_precision(row_place, precision_field)?;
    Ok(RowHead {
        limits: *limits,
        row_place: *row_place,
        kind,
        id,
        precision,
        text,
    })
}

// Judges a record of five fields as `judge_head` does: returns its row, whose points are still to
// be read, or the first reason to refuse it.
#[inline(always)]
fn judge_fields<'a>(
    limits: &Limits,
    rows: &[OpenRow],
    nodes: u32,
    points_before: u32,
    fields: &Fields<'a>,
) -> Result<RowHead<'a>, RowReason>
    ensures { JudgedBy (λ v. (before : List TableRow) → StandsAfter before rows.now nodes points_before
        → Judged limits.now before (record_seen fields.now) v) result }
{
    let Some(depth) = parse_depth(fields.depth) else {
        return Err(RowReason::BadDepth);
    };
    let Some(kind) = parse_kind(fields.kind) else {
        return Err(RowReason::BadKind);
    };
    let Some(row_place) = RowPlace::at(depth, rows, nodes, points_before) else {
        return Err(RowReason::BadPlace);
    };
    judge_at(
        limits,
        &row_place,
        kind,
        fields.id,
        fields.precision,
        fields.polyline,
    )
}

// Judges a record after the header, except for its points, given the open rows, the root first, and
// the numbers of rows and of points from the last root on. Returns its row, whose points are still
// to be read, or the first reason to refuse it (profile); if the row is returned, the verdict on
// its points is the verdict on the record.
#[inline(always)]
pub(crate) fn judge_head<'a>(
    limits: &Limits,
    rows: &[OpenRow],
    nodes: u32,
    points_before: u32,
    csv_record: &'a ByteRecord,
) -> Result<RowHead<'a>, RowReason>
    ensures { JudgedBy (λ v. (before : List TableRow) → StandsAfter before rows.now nodes points_before
        → Judged limits.now before (fields_of csv_record.now) v) result }
{
    if csv_record.len() != FIELD_COUNT {
        return Err(RowReason::FieldCount);
    }
    let fields = five_fields(csv_record);
    judge_fields(limits, rows, nodes, points_before, &fields)
}

/// Judges a record after the header, given the open rows, the root first, and the numbers of rows
/// and of points from the last root on. Returns its row, whose points replace those in `points`. An
/// `Err` is `Memory` or the first reason to refuse the record (profile); after it nothing is known
/// of `points`. Takes memory for the points alone.
#[inline(always)]
pub fn judge(
    limits: &Limits,
    rows: &[OpenRow],
    nodes: u32,
    points_before: u32,
    csv_record: &ByteRecord,
    points: &mut Vec<Pt>,
) -> Result<Row, Stop<RowReason>>
    ensures read { IfOk result (λ row. (before : List TableRow)
        → StandsAfter before rows.now nodes points_before
        → Judged limits.now before (fields_of csv_record.now)
        (Accepted (row_with row points.new.items))) }
    ensures refused { IfErr result (IfRefused (λ reason. (before : List TableRow)
        → StandsAfter before rows.now nodes points_before
        → Judged limits.now before (fields_of csv_record.now) (Refused reason))) }
{
    let head = match judge_head(limits, rows, nodes, points_before, csv_record) {
        Ok(head) => head,
        Err(reason) => return Err(Stop::Refused(reason)),
    };
    points.clear();
    head.append_to(points)?;
    Ok(head.row())
}
