//! Stops with their numbers, as one geometry.
ghost use Rattle.std.specs.Prelude.{◌≡◌, pos, Some, IfOk};
ghost use Rattle.twkb_tree.specs.Tree.{simple, multi_point};
ghost use Rattle.twkb_tree.specs.Limits.{IsValid, standard_limits};

use thiserror::Error;
use twkb_geom::{GeomFault, Geometry, IdList, Limits, Pts, Shape};
use twkb_points::Pt;

// The number of decimals of the coordinates of stops.
const PRECISION: i8 = 5;

/// Why stops can't be made or printed.
#[derive(Clone, Copy, Debug, PartialEq, Eq, Error)]
pub enum StopsFault {
    /// There is not one number for each point, or there is no point.
    #[error("{0}")]
    NotStops(GeomFault),
    /// There are more points than a geometry may have.
    #[error("too many stops")]
    TooMany,
    /// No memory for the text.
    #[error("out of memory")]
    Memory,
}

/// Makes a multipoint of five decimals from points with a number each. Takes no memory.
pub fn make_stops(points: Vec<Pt>, numbers: Vec<i64>) -> Result<Geometry, StopsFault>
    ensures made { IfOk result (λ g. g ≡ simple (pos 5) (multi_point (Some numbers.items) points.items)) }
    ensures valid { IfOk result (λ g. IsValid standard_limits g) }
{
    let ids = Some(IdList::from_vec(numbers));
    let shape = Shape::MultiPoint(Pts::from_vec(points), ids);
    let stops = match Geometry::try_new(PRECISION, shape) {
        Ok(stops) => stops,
        Err((_shape, fault)) => return Err(StopsFault::NotStops(fault)),
    };
    if !stops.within(&Limits::standard()) {
        return Err(StopsFault::TooMany);
    }
    Ok(stops)
}
