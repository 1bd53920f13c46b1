//! The rows and points of a flat form, written into arrays.
ghost use Rattle.std.specs.Prelude.{◌≡◌, length};
ghost use Rattle.twkb_tree.specs.Rows.{row_points};
ghost use Rattle.twkb_buffer.specs.Polylines.{coordinates_of};
ghost use Rattle.twkb_arrays.specs.Rows.{rows_in_c};

use crate::row::{BufferRow, in_layout};
use twkb_buffer::{BufferPoint, as_coordinates};
use twkb_flat::{NodeId, Rows, Work};
use twkb_points::Pt;

// Writes the coordinates of points over an array, which must have as many places.
#[inline(always)]
fn put_points(own: &[Pt], points: &mut [BufferPoint])
    requires { length own.now ≡ length points.old }
    ensures { points.new ≡ coordinates_of own.now }
{
    for at in 0..own.len() {
        points[at] = as_coordinates(own[at]);
    }
}

// Writes the rows of a form and their points over two arrays, which must have as many places as
// there are rows and points.
pub(crate) fn put_form(form: &Rows, rows: &mut [BufferRow], points: &mut [BufferPoint])
    requires rows { length rows.old ≡ length form.now.flat }
    requires points { length points.old ≡ length (row_points form.now.flat) }
    ensures rows { rows.new ≡ rows_in_c form.now.flat }
    ensures points { points.new ≡ coordinates_of (row_points form.now.flat) }
{
    let mut work = Work::new();
    let mut first = 0;
    for at in 0..form.flat.node_count() {
        let (row, own) = form.row_at(NodeId(at), &mut work);
        rows[at as usize] = in_layout(&row, own.len());
        let last = first + own.len();
        put_points(own, &mut points[first..last]);
        first = last;
    }
}
