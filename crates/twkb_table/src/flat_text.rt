//! The rows of a flat form as text.
ghost use Rattle.std.specs.Prelude.{◌≡◌, ◌≤◌, ◌+◌, ◌++◌, length, map, OnOk, OnErr};
ghost use Rattle.twkb_tree.specs.Rows.{row_points};
ghost use Rattle.twkb_tree.specs.Tree.{saturated};
ghost use Rattle.twkb_table.specs.Record.{record_of};
ghost use Rattle.twkb_table.specs.Text.{csvtext};

use crate::row_line::put_row;
use std::alloc::AllocError;
use twkb_flat::{NodeId, Rows, Work};

/// Appends the lines of the rows of a flat form, each ended by LF, without the header's line
/// (profile; their polylines: Encoded Polyline Algorithm Format). Adds the numbers of rows and
/// points that it reads to `work`, after an `Err` too. Takes memory for the text alone; if it is
/// refused, the text is as it was.
pub fn put_flat_rows(rows: &Rows, work: &mut Work, text: &mut Vec<u8>) -> Result<(), AllocError>
    ensures appended { OnOk result (text.new.items ≡ text.old.items ++ csvtext (map record_of rows.now.flat)) }
    ensures counted { OnOk result (work.new
        ≡ record work.old {
          node_reads = saturated (work.old.node_reads + length rows.now.flat);
          point_reads = saturated (work.old.point_reads + length (row_points rows.now.flat));
        }) }
    ensures same { OnErr result (text.new.items ≡ text.old.items) }

    // no more reads than there are rows and points
    ensures nodes { work.new.node_reads ≤ work.old.node_reads + length rows.now.flat }
    ensures points { work.new.point_reads ≤ work.old.point_reads + length (row_points rows.now.flat) }
{
    // lets proofs know that the counts fit 64 bits
    let _learnt = work.node_reads;
    let _learnt = work.point_reads;
    let start = text.len();
    for index in 0..rows.flat.node_count() {
        let (row, points) = rows.row_at(NodeId(index), work);
        let Ok(()) = put_row(&row, points, text) else {
            text.truncate(start);
            return Err(AllocError);
        };
    }
    Ok(())
}
