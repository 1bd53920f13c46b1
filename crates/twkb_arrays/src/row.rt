//! A row in C's layout.
ghost use Rattle.std.specs.Prelude.{◌≡◌, List, length};
ghost use Rattle.twkb_points.specs.Point.{Point};
ghost use Rattle.twkb_flat.specs.Rows.{row_with};
ghost use Rattle.twkb_arrays.specs.Rows.{kind_number, row_in_c};

use twkb_flat::Row;
use twkb_tree::Kind;

/// A row of a table in C's layout: 24 bytes, of which none is unused.
#[repr(C)]
#[derive(Clone, Copy, Debug, PartialEq, Eq)]
pub struct BufferRow {
    /// The id if the row has one; 0 if it has none.
    pub id: i64,
    /// The number of the row's own points, which are the next ones of the list of points.
    pub points: u64,
    /// The depth of the row, 0 for the root of a geometry.
    pub depth: u32,
    /// The kind: the number of its type (TWKB, type and precision), 1 to 7, and 8 for a ring.
    pub kind: u16,
    /// 1 if the row has an id, 0 if it has none.
    pub has_id: u8,
    /// The number of decimals, -8 to 7, if the row is a geometry itself; `NO_PRECISION` if not.
    pub precision: i8,
}

/// The precision of a row that has none.
pub const NO_PRECISION: i8 = -128;

// The number of a kind: that of its type in TWKB, 1 to 7, and 8 for a ring.
#[inline(always)]
fn number_of(kind: Kind) -> u16
    ensures { result ≡ kind_number kind }
{
    match kind {
        Kind::Point => 1,
        Kind::Linestring => 2,
        Kind::Polygon => 3,
        Kind::MultiPoint => 4,
        Kind::MultiLinestring => 5,
        Kind::MultiPolygon => 6,
        Kind::Collection => 7,
        Kind::Ring => 8,
    }
}

// A row of a geometry that has `count` points of its own, in C's layout.
#[inline(always)]
pub(crate) fn in_layout(row: &Row, count: usize) -> BufferRow
    ensures { (own : List Point) → length own ≡ count → result ≡ row_in_c (row_with row.now own) }
{
    let (has_id, id) = match row.id {
        Some(id) => (1, id),
        None => (0, 0),
    };
    let precision = match row.precision {
        Some(precision) => precision,
        None => NO_PRECISION,
    };
    BufferRow {
        id,
        points: count as u64,
        depth: row.depth,
        kind: number_of(row.kind),
        has_id,
        precision,
    }
}
