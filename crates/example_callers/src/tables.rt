//! A table written by code.
ghost use Rattle.std.specs.Prelude.{◌≡◌, ◌∷◌, [], pos, Some, IfOk};
ghost use Rattle.twkb_tree.specs.Tree.{simple, multi_point};
ghost use Rattle.twkb_tree.specs.Limits.{IsValid, standard_limits};
ghost use Rattle.twkb_table.specs.Record.{table};
ghost use Rattle.twkb_table.specs.Text.{csvtext};

use crate::stops::{StopsFault, make_stops};
use std::alloc::Global;
use twkb_geom::Geometry;
use twkb_points::Pt;
use twkb_table::{header_text, put_rows};

/// Writes the table of one geometry, the stops. Takes memory for its text, for that of its rows
/// and for the longest polyline.
pub fn stops_table(alloc: Global, points: Vec<Pt>, numbers: Vec<i64>) -> Result<Vec<u8>, StopsFault>
    ensures { IfOk result (λ text. text.items ≡ csvtext
        (table (simple (pos 5) (multi_point (Some numbers.items) points.items) ∷ []))) }
{
    let stops = make_stops(points, numbers)?;
    table_of(alloc, &stops)
}

// The table of one geometry.
fn table_of(alloc: Global, geometry: &Geometry) -> Result<Vec<u8>, StopsFault>
    requires valid { IsValid standard_limits geometry.now }
    ensures { IfOk result (λ text. text.items ≡ csvtext (table (geometry.now ∷ []))) }
{
    let Ok(mut text) = Vec::from_slice(alloc, header_text()) else {
        return Err(StopsFault::Memory);
    };
    if put_rows(geometry, &mut text).is_err() {
        return Err(StopsFault::Memory);
    }
    Ok(text)
}
