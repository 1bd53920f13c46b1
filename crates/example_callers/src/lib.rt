//! Callers of the crates for geometries, polylines, tables, blobs and conversions, as the READMEs
//! of these crates show them.
#![tactic(auto)]

mod accounts;
mod arrivals;
mod joining;
mod points;
mod stops;
mod tables;

pub use accounts::{Account, pack_table};
pub use arrivals::{Arrived, count_arrivals};
pub use joining::joined;
pub use points::count_points;
pub use stops::{StopsFault, make_stops};
pub use tables::stops_table;
