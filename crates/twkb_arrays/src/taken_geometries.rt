//! The geometries of a stream, taken into arrays one after another.
ghost use Rattle.std.specs.Prelude.{◌≡◌, ◌<◌, ◌≤◌, ◌+◌, ◌++◌, ◌⊎◌, ◌∷◌, List, ℕ, [], length, drop, take, true, false};
ghost use Rattle.twkb_tree.specs.Tree.{Tree, saturated};
ghost use Rattle.twkb_tree.specs.Limits.{Allowance};
ghost use Rattle.twkb_tree.specs.Rows.{row_points, rows};
ghost use Rattle.twkb_buffer.specs.Polylines.{coordinates_of};
ghost use Rattle.twkb_buffer.specs.declared.point.BufferPoint.{BufferPoint as InPoint};
ghost use Rattle.twkb_arrays.specs.Ends.{EndAt};
ghost use Rattle.twkb_arrays.specs.Rows.{rows_in_c};
ghost use Rattle.twkb_arrays.specs.declared.row.BufferRow.{BufferRow as InRow};
ghost use Rattle.twkb_arrays.specs.FilledArrays.{HasTaken, IsWithin, TakesOne};

use crate::copied_form::put_form;
use crate::end_room::{has_end_room, put_end};
use crate::row::BufferRow;
use twkb_buffer::BufferPoint;
use twkb_flat::Rows;

// What was taken of the geometries read so far.
#[derive(Clone, Copy)]
pub(crate) struct Taken {
    // The number of geometries in the arrays.
    pub(crate) done: usize,
    // The number of rows in the arrays.
    pub(crate) rows: usize,
    // The number of points in the arrays.
    pub(crate) points: usize,
    // The number of bytes of their blobs.
    pub(crate) bytes: usize,
    // The number of geometries read after those in the arrays: there was too little room for the
    // first of them.
    pub(crate) passed: u64,
    // The number of rows of these geometries.
    pub(crate) passed_rows: u64,
    // The number of points of these geometries.
    pub(crate) passed_points: u64,
}

impl Taken {
    // What was taken before the first geometry: nothing.
    pub(crate) fn nothing() -> Taken
        ensures { (l : Allowance) (bytes : List ℕ) (in_rows : List InRow) (in_points : List InPoint)
            (in_ends : List ℕ)
            → HasTaken (EndAt l bytes) in_rows in_points in_ends [] [] in_rows in_points in_ends result }
    {
        Taken {
            done: 0,
            rows: 0,
            points: 0,
            bytes: 0,
            passed: 0,
            passed_rows: 0,
            passed_points: 0,
        }
    }

    // Counts a geometry that was read, and that has these numbers of rows and points, as passed;
    // each count stays at most `u64::MAX`.
    #[cold]
    fn pass(&mut self, rows: usize, points: usize)
        ensures { self.new ≡ record self.old {
          passed = saturated (self.old.passed + 1);
          passed_rows = saturated (self.old.passed_rows + rows);
          passed_points = saturated (self.old.passed_points + points);
        } }
    {
        self.passed = self.passed.saturating_add(1);
        self.passed_rows = self.passed_rows.saturating_add(rows as u64);
        self.passed_points = self.passed_points.saturating_add(points as u64);
    }
}

// Whether no geometry was passed, and arrays of these lengths have room for one more, of
// `row_count` rows and `point_count` points.
#[inline(always)]
fn has_room(
    taken: &Taken,
    row_count: usize,
    point_count: usize,
    row_room: usize,
    point_room: usize,
    end_room: usize,
) -> bool
    requires rows { taken.now.rows ≤ row_room }
    requires points { taken.now.points ≤ point_room }
    ensures has { result ≡ true → (taken.now.passed ≡ 0) × (taken.now.rows + row_count ≤ row_room)
        × (taken.now.points + point_count ≤ point_room) × ((end_room ≡ 0) ⊎ (taken.now.done < end_room)) }
    ensures lacks { result ≡ false → (0 < taken.now.passed) ⊎ ((row_room < taken.now.rows + row_count)
        ⊎ ((point_room < taken.now.points + point_count)
        ⊎ ((0 < end_room) × (end_room ≤ taken.now.done)))) }
{
    if taken.passed > 0 || row_count > row_room - taken.rows {
        return false;
    }
    if point_count > point_room - taken.points {
        return false;
    }
    has_end_room(end_room, taken.done)
}

// Writes the rows of a form and their points into arrays, from these places on; each array must
// have room for them there.
#[inline(always)]
fn put_from(
    form: &Rows,
    row_array: &mut [BufferRow],
    first_row: usize,
    point_array: &mut [BufferPoint],
    first_point: usize,
)
    requires rows { first_row + length form.now.flat ≤ length row_array.old }
    requires points { first_point + length (row_points form.now.flat) ≤ length point_array.old }
    ensures rows { row_array.new ≡ take first_row row_array.old ++ (rows_in_c form.now.flat
        ++ drop (first_row + length form.now.flat) row_array.old) }
    ensures points { point_array.new ≡ take first_point point_array.old
        ++ (coordinates_of (row_points form.now.flat)
        ++ drop (first_point + length (row_points form.now.flat)) point_array.old) }
{
    let last_row = first_row + form.flat.node_count() as usize;
    let last_point = first_point + form.flat.point_count() as usize;
    let rows = &mut row_array[first_row..last_row];
    let points = &mut point_array[first_point..last_point];
    put_form(form, rows, points);
}

// Writes the rows of a form, which must have one at least, and their points after those in the
// arrays, and the geometry's end, if the arrays have room for them and had for all geometries
// before; else only counts them. `taken` must be what was taken into these arrays.
pub(crate) fn take_geometry(
    form: &Rows,
    end: usize,
    row_array: &mut [BufferRow],
    point_array: &mut [BufferPoint],
    ends: &mut [u64],
    taken: &mut Taken,
)
    requires some { 0 < length form.now.flat }
    requires within { IsWithin row_array.old point_array.old taken.old }
    ensures one { taken.new.passed ≤ taken.old.passed + 1 }
    ensures takes { (l : Allowance) (bytes : List ℕ) (start_rows : List InRow) (start_points : List InPoint)
        (start_ends : List ℕ) (given later : List Tree) (g : Tree)
        → HasTaken (EndAt l bytes) start_rows start_points start_ends given later row_array.old
        point_array.old ends.old taken.old → rows 0 g ≡ form.now.flat
        → EndAt l bytes ((given ++ later) ++ g ∷ []) end
        → TakesOne (EndAt l bytes) start_rows start_points start_ends (given ++ later) g
        row_array.new point_array.new ends.new taken.new }
{
    let row_count = form.flat.node_count() as usize;
    let point_count = form.flat.point_count() as usize;
    if !has_room(
        taken,
        row_count,
        point_count,
        row_array.len(),
        point_array.len(),
        ends.len(),
    ) {
        taken.pass(row_count, point_count);
        return;
    }
    put_from(form, row_array, taken.rows, point_array, taken.points);
    put_end(ends, taken.done, end as u64);
    taken.rows += row_count;
    taken.points += point_count;
    taken.bytes = end;
    taken.done += 1;
}
