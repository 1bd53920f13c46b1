//! The open rows of a table that is being read.
ghost use Rattle.std.specs.Prelude.{◌≡◌, ◌≤◌, ◌<◌, ◌+◌, [], List, length, take, is_some, OnOk, OnErr};
ghost use Rattle.twkb_points.specs.Point.{Point};
ghost use Rattle.twkb_tree.specs.Rows.{Row as TableRow};
ghost use Rattle.twkb_tree.specs.Open.{opened};
ghost use Rattle.twkb_tree.specs.declared.open_rows.OpenRow.{OpenRow};
ghost use Rattle.twkb_flat.specs.Rows.{row_with};

use smallvec::SmallVec;
use std::alloc::{AllocError, Global};
use std::marker::Model;
use twkb_flat::Row;
use twkb_tree::{Kind, OpenRow};

// Up to this many open rows are kept inline and take no memory. Eight nested collections and a
// point in them have nine.
const INLINE: usize = 16;

// The open rows, the root first. A place is kept after its row is complete, for the next row at
// that depth, so nothing is dropped and no blank is written.
#[derive(Drop)]
pub(crate) struct OpenRows {
    places: SmallVec<OpenRow, INLINE>,
    open_count: usize,
}

impl Model for OpenRows {
    ghost Value = { List OpenRow };

    ghost view = { λ rows. take rows.open_count rows.places.items };

    ghost invariant = { λ rows. rows.open_count ≤ length rows.places.items };
}

// Writes an open row of this kind over the place at this depth, which must be there. Its parent,
// unless the row is a root, then has a child, with an id or without.
#[inline(always)]
fn write(places: &mut [OpenRow], depth: usize, kind: Kind, has_id: bool)
    requires { depth < length places.old }
    ensures opened { (r : TableRow) → r.kind ≡ kind → is_some r.id ≡ has_id
        → take (depth + 1) places.new ≡ opened depth places.old r }
    ensures as_many { length places.new ≡ length places.old }
{
    places[depth] = OpenRow {
        kind,
        child_ids: None,
    };
    if depth > 0 {
        places[depth - 1] = places[depth - 1].with_child(has_id);
    }
}

// Writes an open row as `write` does, at a depth that may be one past the last place, which is then
// added; it must not be deeper. Takes memory only for a place past the sixteenth; an `Err` changes
// nothing. Out of line: most places are inline, and are used again.
#[cold]
#[inline(never)]
fn write_apart(
    places: &mut SmallVec<OpenRow, INLINE>,
    depth: usize,
    kind: Kind,
    has_id: bool,
) -> Result<(), AllocError>
    requires { depth ≤ length places.old.items }
    ensures opened { OnOk result ((r : TableRow) → r.kind ≡ kind → is_some r.id ≡ has_id
        → take (depth + 1) places.new.items ≡ opened depth places.old.items r) }
    ensures enough { OnOk result (depth < length places.new.items) }
    ensures same { OnErr result (places.new.items ≡ places.old.items) }
{
    if depth >= places.len() {
        let Ok(()) = places.push(OpenRow::default()) else {
            return Err(AllocError);
        };
    }
    write(places.as_mut_slice(), depth, kind, has_id);
    Ok(())
}

impl OpenRows {
    // Makes an empty list of open rows. Takes no memory.
    pub(crate) fn new(alloc: Global) -> OpenRows
        ensures { result ≡ [] }
    {
        OpenRows {
            places: SmallVec::new(alloc),
            open_count: 0,
        }
    }

    // The open rows, the root first.
    #[inline(always)]
    pub(crate) fn as_slice(&self) -> &[OpenRow]
        ensures { result.now ≡ self.now }
    {
        &self.places.as_slice()[..self.open_count]
    }

    // Opens a row that was read, whose depth must be at most the number of open rows: rows at its
    // depth and deeper are complete, its parent gets a child, and it becomes the last open row.
    // Takes memory only if more rows are open than ever before, and more than sixteen; an `Err`
    // changes nothing.
    #[inline(always)]
    pub(crate) fn open_row(&mut self, row: &Row) -> Result<(), AllocError>
        requires { row.now.depth ≤ length self.old }
        ensures opened { OnOk result ((points : List Point)
            → self.new ≡ opened row.now.depth self.old (row_with row.now points)) }
        ensures same { OnErr result (self.new ≡ self.old) }
    {
        let depth = row.depth as usize;
        let has_id = row.id.is_some();
        if self.places.spilled() || depth >= self.places.len() {
            write_apart(&mut self.places, depth, row.kind, has_id)?;
        } else {
            write(self.places.as_mut_slice(), depth, row.kind, has_id);
        }
        self.open_count = depth + 1;
        Ok(())
    }
}
