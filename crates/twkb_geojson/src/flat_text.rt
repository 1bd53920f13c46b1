//! The text of a geometry from its rows.
ghost use Rattle.std.specs.Prelude.{◌≡◌, ◌++◌, [], OnOk};
ghost use Rattle.twkb_tree.specs.Tree.{Tree, IsTree};
ghost use Rattle.twkb_tree.specs.Rows.{rows};
ghost use Rattle.twkb_geojson.specs.Value.{geojson};
ghost use Rattle.twkb_geojson.specs.Text.{Grows};

use crate::geometry_text::put_geometry;
use crate::simple_text::put_line;
use std::alloc::AllocError;
use twkb_flat::{NodeId, Rows, Work};
use twkb_tree::Kind;

/// Appends the text of the geometry whose rows a flat form has (RFC 7946, section 3.1; without
/// blanks; the member `ids`: profile), or nothing if it has no row. Takes memory for the text and,
/// if the geometry has more than one row, for another form of it; after an `Err` a prefix of the
/// text may be appended.
pub fn put_geojson(form: &Rows, text: &mut Vec<u8>) -> Result<(), AllocError>
    ensures appended { OnOk result ((g : Tree) → IsTree g → rows 0 g ≡ form.now.flat
        → text.new.items ≡ text.old.items ++ geojson g) }
    ensures grown { Grows text.old.items text.new.items }
{
    if form.flat.is_empty() {
        return Ok(());
    }
    let (root, points) = form.row_at(NodeId(0), &mut Work::new());
    let Some(precision) = root.precision else {
        return put_tree(form, text);
    };
    match root.kind {
        Kind::Linestring => put_line(precision, points, text),
        _ => put_tree(form, text),
    }
}

// Appends the text of the geometry whose rows a flat form has, of which there must be one. Takes
// memory for the text and for another form of the geometry; after an `Err` a prefix of the text may
// be appended.
fn put_tree(form: &Rows, text: &mut Vec<u8>) -> Result<(), AllocError>
    requires some { ¬ (form.now.flat ≡ []) }
    ensures appended { OnOk result ((g : Tree) → IsTree g → rows 0 g ≡ form.now.flat
        → text.new.items ≡ text.old.items ++ geojson g) }
    ensures grown { Grows text.old.items text.new.items }
{
    let geometry = form.flat.to_geometry(*text.allocator())?;
    put_geometry(&geometry, text)?;
    Ok(())
}
