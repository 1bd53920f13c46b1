//! A row of an array with its points, appended to the form of its geometry.
ghost use Rattle.std.specs.Prelude.{◌≡◌, ◌≤◌, ◌++◌, ◌∷◌, [], length, IfOk, IfErr, OnErr};
ghost use Rattle.twkb_tree.specs.Rows.{Row as TableRow, AreValidRowsOfOne};
ghost use Rattle.twkb_flat.specs.Taking.{IfRefused};
ghost use Rattle.twkb_arrays.specs.JudgedRow.{AcceptedAfter, RefusedAfter};

use crate::judged_row::{bare_row, has_right_id, kind_of, refused, refused_row};
use crate::own_points::OwnPoints;
use crate::row::BufferRow;
use twkb_buffer::BufferPoint;
use twkb_convert::RowReason;
use twkb_flat::{Flat, Stop};
use twkb_tree::Limits;

// The number of the reason for which a row is refused that names more points than there are.
const POINTS_MISSING: u32 = 71;

// Appends a row of an array, with as many of the points ahead as it names, to the form of its
// geometry, and returns the number of these points. The form must have the rows of one geometry
// within the limits, or none; none if the row is a root. Takes memory. An `Err` is want of memory,
// or the number of the first reason to refuse the row, and leaves the form as it was.
#[inline(always)]
pub(crate) fn push_judged(
    limits: Limits,
    form: &mut Flat,
    row: &BufferRow,
    ahead: &[BufferPoint],
) -> Result<usize, Stop<u32>>
    requires valid { AreValidRowsOfOne limits form.old }
    requires next { row.now.depth ≡ 0 → form.old ≡ [] }
    ensures count { IfOk result (λ count. (count ≤ length ahead.now) × (count ≡ row.now.points)) }
    ensures pushed { IfOk result (λ count. (r : TableRow) × (form.new ≡ form.old ++ r ∷ [])
        × AcceptedAfter limits form.old row.now ahead.now r × AreValidRowsOfOne limits form.new) }
    ensures refused { IfErr result (IfRefused (RefusedAfter limits form.old row.now ahead.now)) }
    ensures same { OnErr result (form.new ≡ form.old) }
{
    let Some(kind) = kind_of(row.kind) else {
        return Err(refused(RowReason::BadKind));
    };
    if !has_right_id(row) {
        return Err(refused(RowReason::BadId));
    }
    if row.points > ahead.len() as u64 {
        return Err(Stop::Refused(POINTS_MISSING));
    }
    let count = row.points as usize;
    let own = &ahead[..count];
    let bare = bare_row(row, kind);
    let Some(row_place) = form.place(row.depth) else {
        return Err(refused(RowReason::BadPlace));
    };
    if let Some(reason) = refused_row(&limits, &row_place, &bare, own) {
        return Err(refused(reason));
    }
    match form.push_from(bare, &OwnPoints { own }) {
        Ok(()) => Ok(count),
        Err(stop) => Err(stop),
    }
}
