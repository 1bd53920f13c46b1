//! Copies of geometries.
ghost use Rattle.std.specs.Prelude.{◌≡◌, IfOk};

use crate::geometry::{Geometry, Members, Shape};
use crate::lists::{Element, Ids};
use std::alloc::{AllocError, Global};

impl Members {
    // Makes members equal to these. Takes memory for their list, and for each list in them.
    #[cycle(copy)]
    fn copy(&self, alloc: Global) -> Result<Members, AllocError>
        ensures { IfOk result (λ copy. copy ≡ self.now) }
    {
        let members = self.as_slice();
        let mut items = Vec::with_capacity(alloc, members.len())?;
        for member in members {
            items.push_reserved(member.copy(alloc)?);
        }
        Ok(Members { items })
    }
}

// Makes a copy of ids, if there are any. Takes memory for it.
fn copy_ids(alloc: Global, ids: &Ids) -> Result<Ids, AllocError>
    ensures { IfOk result (λ copy. copy ≡ ids.now) }
{
    match ids {
        None => Ok(None),
        Some(ids) => Ok(Some(ids.copy(alloc)?)),
    }
}

impl Shape {
    // Makes a shape equal to this one. Takes memory for each list in it.
    #[cycle(copy)]
    fn copy(&self, alloc: Global) -> Result<Shape, AllocError>
        ensures { IfOk result (λ copy. copy ≡ self.now) }
    {
        match self {
            Shape::Point(point) => Ok(Shape::Point(*point)),
            Shape::Line(points) => Ok(Shape::Line(points.copy(alloc)?)),
            Shape::Polygon(rings) => Ok(Shape::Polygon(rings.copy(alloc)?)),
            Shape::MultiPoint(points, ids) => {
                Ok(Shape::MultiPoint(points.copy(alloc)?, copy_ids(alloc, ids)?))
            }
            Shape::MultiLine(lines, ids) => {
                Ok(Shape::MultiLine(lines.copy(alloc)?, copy_ids(alloc, ids)?))
            }
            Shape::MultiPolygon(areas, ids) => {
                Ok(Shape::MultiPolygon(areas.copy(alloc)?, copy_ids(alloc, ids)?))
            }
            Shape::Collection(members, ids) => {
                Ok(Shape::Collection(members.copy(alloc)?, copy_ids(alloc, ids)?))
            }
        }
    }
}

impl Geometry {
    /// Makes a geometry equal to this one. Takes memory for each list in it, and returns
    /// `AllocError` only if memory is refused.
    #[cycle(copy)]
    pub fn copy(&self, alloc: Global) -> Result<Geometry, AllocError>
        ensures { IfOk result (λ copy. copy ≡ self.now) }
    {
        let shape = self.shape().copy(alloc)?;
        Ok(Geometry {
            precision: self.precision,
            shape,
        })
    }
}
