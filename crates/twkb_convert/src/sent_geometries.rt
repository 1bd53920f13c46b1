//! The geometries of a table, sent one after another.
ghost use Rattle.std.specs.Prelude.{◌≡◌, ◌≤◌, OnOk, IfErr};
ghost use Rattle.twkb_tree.specs.Tree.{Tree, IsTree};
ghost use Rattle.twkb_tree.specs.Rows.{rows};
ghost use Rattle.twkb_convert.specs.SentGeometries.{EndsAfter, SendsPoints, CutsBlob, WritesBlob, with_rows};

use crate::report::Cause;
use std::alloc::Global;
use std::io::{Read, Write};
use twkb_flat::{Flat, Work};
use twkb_io::Output;
use twkb_table::TableReader;
use twkb_writer::{Depths, Piece, Sizes, Style, measure_into, write_point, write_through};

// Memory that is reused from one geometry to the next.
#[derive(Drop)]
pub(crate) struct Room {
    form: Flat,
    depths: Depths,
    sizes: Sizes,
    piece: Piece,
}

impl Room {
    // Makes an empty room, which grows as geometries need it. Takes no memory.
    pub(crate) fn new(alloc: Global) -> Room {
        Room {
            form: Flat::new(alloc),
            depths: Depths::new(),
            sizes: Sizes::new(alloc),
            piece: Piece::new(),
        }
    }
}

// The number of geometries that were sent whole, that of their rows, and the work of measuring and
// writing them; after an `Err` the work may include some of one that was cut.
#[derive(Drop)]
pub(crate) struct Sent {
    pub(crate) geometries: u64,
    pub(crate) rows: u64,
    pub(crate) work: Work,
}

// Sends the geometries of a table to an output in a style, each when the row after it was accepted
// or the table's end was reached, and adds them and their work to `sent`, which must count those of
// the table that were sent before. An `Err` is a fault of the table or of the output, `Memory` if a
// growth was refused, or `TooLong` after 2^64 - 1 geometries; a growth refused to `csv` is
// `ReadDevice` here, which `after_reads` corrects. Takes memory as `pack_styled` does.
pub(crate) fn send_table<R: Read, W: Write>(
    table: &mut TableReader<'_, R>,
    style: Style,
    room: &mut Room,
    output: &mut Output<'_, W>,
    sent: &mut Sent,
) -> Result<(), Cause>
    ensures ends { EndsAfter style R.remaining W.contents table.old output.old sent.old output.new sent.new result }
{
    while sent.geometries < u64::MAX {
        if table.has_point() {
            send_points(table, style, room, output, sent)?;
        }
        if !table.next_flat(&mut room.form)? {
            return Ok(());
        }
        write_blob(style, room, output, &mut sent.work)?;
        sent.geometries += 1;
        sent.rows = sent.work.nodes;
    }
    Err(Cause::TooLong)
}

// Fast path: sends the geometries that come next, as long as they are known to be points that are
// not empty, and adds them, their rows and their work to `sent`. An `Err`, and what `sent` must
// count, are as with `send_table`. Takes memory as `TableReader::next_point` does. Out of line, and
// a loop of its own: inlined, it adds 1 in 100 to the instructions of other geometries; a call for
// each point adds 150 instructions to each point.
#[inline(never)]
fn send_points<R: Read, W: Write>(
    table: &mut TableReader<'_, R>,
    style: Style,
    room: &mut Room,
    output: &mut Output<'_, W>,
    sent: &mut Sent,
) -> Result<(), Cause>
    ensures sends { SendsPoints style R.remaining W.contents table.old output.old sent.old table.new output.new
        sent.new result }
{
    let before = sent.geometries;
    let sending = send_each_point(table, style, room, output, sent);
    sent.rows = sent.rows.saturating_add(sent.geometries - before);
    sending
}

// The loop of `send_points`. It leaves the number of rows to its caller, who knows it at the end:
// each point has one row.
#[inline(always)]
fn send_each_point<R: Read, W: Write>(
    table: &mut TableReader<'_, R>,
    style: Style,
    room: &mut Room,
    output: &mut Output<'_, W>,
    sent: &mut Sent,
) -> Result<(), Cause>
    ensures sends { SendsPoints style R.remaining W.contents table.old output.old sent.old table.new output.new
        (with_rows sent.old sent.new) result }
    ensures no_fewer { sent.old.geometries ≤ sent.new.geometries }
    ensures same_rows { sent.new.rows ≡ sent.old.rows }
{
    while sent.geometries < u64::MAX {
        let Some(found) = table.next_point()? else {
            return Ok(());
        };
        let (precision, point) = found;
        write_point(
            precision,
            point,
            style,
            &mut room.piece,
            output,
            &mut sent.work,
        )?;
        sent.geometries += 1;
    }
    Err(Cause::TooLong)
}

// Writes the canonical blob of the geometry whose rows are in the form of a room, in a style, and
// adds its work to `work`. Takes memory for the sizes past their room; if it is refused, the output
// took nothing. If the output refuses, it took a prefix of the blob. After an `Err` `work` may have
// some of the work.
fn write_blob<W: Write>(
    style: Style,
    room: &mut Room,
    output: &mut Output<'_, W>,
    work: &mut Work,
) -> Result<(), Cause>
    ensures ok { OnOk result ((g : Tree) → IsTree g → rows 0 g ≡ room.old.form
        → WritesBlob style W.contents g output.old work.old output.new work.new) }
    ensures err { IfErr result (λ fault. (g : Tree) → IsTree g → rows 0 g ≡ room.old.form
        → CutsBlob style W.contents g output.old fault output.new) }
{
    twkb_tree::laws::nodes_are_rows();
    twkb_writer::laws::one_size_each();
    // a copy, so that the counts stay in registers: `work` is in the caller's memory
    let mut counted = *work;
    measure_into(
        &room.form,
        style,
        &mut room.depths,
        &mut room.sizes,
        &mut counted,
    )?;
    write_through(
        &room.form,
        style,
        &room.sizes,
        &mut room.piece,
        output,
        &mut counted,
    )?;
    *work = counted;
    Ok(())
}
