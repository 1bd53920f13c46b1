//! Geometries, their shapes and their members.
ghost use Rattle.std.specs.Prelude.{◌≡◌, ◌↔◌, IsTrue, IsOk, IfOk};
ghost use Rattle.twkb_tree.specs.Tree.{HasIds, AreTrees, trees};
ghost use Rattle.twkb_tree.specs.Limits.{AreTreesInRange};

use crate::fault::GeomFault;
use crate::lists::{Areas, Ids, Lines, Pts};
use std::marker::Model;
use twkb_points::Pt;

/// The least precision: decimals of coordinates (TWKB, type and precision).
pub const LEAST_PRECISION: i8 = -8;

/// The greatest precision.
pub const GREATEST_PRECISION: i8 = 7;

/// The members of a collection, possibly none. A contract sees the list of their trees.
#[cycle(geometry)]
#[derive(Debug, Drop)]
pub struct Members {
    pub(crate) items: Vec<Geometry>,
}

/// One of the seven shapes (TWKB, the geometry types), with the ids of its members if they have
/// any.
#[cycle(geometry)]
#[derive(Debug, Drop)]
pub enum Shape {
    /// A point, or an empty point.
    Point(Option<Pt>),
    /// The points of a linestring.
    Line(Pts),
    /// The rings of a polygon, not checked for closing or order.
    Polygon(Lines),
    /// Points, each a member.
    MultiPoint(Pts, Ids),
    /// Linestrings, each a member.
    MultiLine(Lines, Ids),
    /// Polygons, each a member.
    MultiPolygon(Areas, Ids),
    /// Geometries of any shape, each a member.
    Collection(Members, Ids),
}

/// A shape with a precision, the number of its coordinates' decimals; each member of a collection
/// has its own. A contract sees the tree.
#[cycle(geometry)]
#[derive(Debug, Drop)]
pub struct Geometry {
    pub(crate) precision: i8,
    pub(crate) shape: Shape,
}

impl Model for Members {
    ghost use Rattle.std.specs.Prelude.{List};
    ghost use Rattle.std.specs.Coded.{coded_list};
    ghost use Rattle.twkb_tree.specs.Tree.{Tree};
    ghost use Rattle.twkb_tree.specs.TreeCode.{coded_tree};

    ghost Value = { List Tree };

    ghost coded = { coded_list coded_tree };

    ghost use Rattle.twkb_tree.specs.Tree.{AreTrees, trees};
    ghost use Rattle.twkb_tree.specs.Limits.{AreTreesInRange};

    ghost view = { λ a. a.items.items };

    ghost invariant = { λ a. AreTrees (trees a.items.items) × AreTreesInRange (trees a.items.items) };

    ghost use Rattle.std.proofs.Common.{arith};
    ghost use Rattle.twkb_tree.specs.Size.{size_of_members, most_le-size};

    ghost size = { size_of_members };

    ghost size_decreases = { λ a h. Prim.omega (arith, most_le-size a.items.items) };
}

impl Model for Geometry {
    ghost use Rattle.twkb_tree.specs.Tree.{Tree, IsTree};
    ghost use Rattle.twkb_tree.specs.Limits.{IsTreeInRange};
    ghost use Rattle.twkb_tree.specs.TreeCode.{coded_tree};

    ghost Value = { Tree };

    ghost coded = { coded_tree };

    ghost use Rattle.twkb_tree.specs.Shape.{tree_of};

    ghost view = { λ a. tree_of a.precision a.shape };

    ghost invariant = { λ a. IsTree (tree_of a.precision a.shape) × IsTreeInRange (tree_of a.precision a.shape) };

    ghost use Rattle.twkb_tree.specs.Size.{size_of};

    ghost size = { size_of };

    ghost use Rattle.std.proofs.Common.{arith};
    ghost use Rattle.twkb_tree.specs.SizeFalls.{deep_le-nodes};

    ghost size_decreases = { λ a h. Prim.omega (arith, deep_le-nodes a.precision a.shape) };
}

impl Members {
    /// Makes the members of a collection from the geometries of a vector, in their order. Takes no
    /// memory.
    pub fn from_vec(items: Vec<Geometry>) -> Members
        ensures { result ≡ items.items }
    {
        for member in &items {
            // lets proofs know that the member is a tree with its points in range
            let _learnt = member.precision();
        }
        Members { items }
    }

    /// The members as a vector. Takes no memory.
    pub fn into_vec(self) -> Vec<Geometry>
        ensures { result.items ≡ self }
    {
        self.items
    }

    /// The members as a slice. Takes no memory.
    pub fn as_slice(&self) -> &[Geometry]
        ensures items { result.now ≡ self.now }
        ensures trees { AreTrees (trees self.now) }
        ensures in_range { AreTreesInRange (trees self.now) }
    {
        self.items.as_slice()
    }
}

// Whether there are no ids, or one for each of `count` members and at least one member.
fn ids_fit(count: usize, ids: &Ids) -> bool
    ensures { IsTrue result ↔ HasIds ids.now count }
{
    match ids {
        None => true,
        Some(ids) => 0 < count && ids.as_slice().len() == count,
    }
}

impl Shape {
    ghost use Rattle.twkb_tree.specs.Shape.{HasFitIds, HasTrees, IsShapeInRange};

    // Whether the ids of the shape's members fit: there are none, or one for each of at least one
    // member. On the way it lets proofs know the facts about its members and points.
    fn has_fit_ids(&self) -> bool
        ensures fit { IsTrue result ↔ HasFitIds self.now }
        ensures trees { HasTrees self.now }
        ensures in_range { IsShapeInRange self.now }
    {
        match self {
            Shape::Point(None) => true,
            Shape::Point(Some(point)) => {
                // lets proofs know that the point is in range
                let _learnt = point.x();
                true
            }
            // the shapes that have no members have no ids
            Shape::Line(points) => ids_fit(points.as_slice().len(), &None),
            Shape::Polygon(rings) => ids_fit(rings.as_slice().len(), &None),
            Shape::MultiPoint(points, ids) => ids_fit(points.as_slice().len(), ids),
            Shape::MultiLine(lines, ids) => ids_fit(lines.as_slice().len(), ids),
            Shape::MultiPolygon(areas, ids) => ids_fit(areas.as_slice().len(), ids),
            Shape::Collection(members, ids) => ids_fit(members.as_slice().len(), ids),
        }
    }
}

impl Geometry {
    ghost use Rattle.twkb_tree.specs.Shape.{tree_of, HasFitIds};
    ghost use Rattle.twkb_tree.specs.Tree.{precision_of, IsTree, IsPrecision};
    ghost use Rattle.twkb_tree.specs.Limits.{IsTreeInRange};

    /// Makes a geometry of a shape with a precision. Refuses a precision outside -8 to 7, and then
    /// ids that are not one for each of at least one member; an `Err` gives the shape back, with
    /// the reason. Takes no memory.
    pub fn try_new(precision: i8, shape: Shape) -> Result<Geometry, (Shape, GeomFault)>
        ensures accepted { IsOk result ↔ (IsPrecision precision × HasFitIds shape) }
        ensures tree { IfOk result (λ g. g ≡ tree_of precision shape) }

        ensures bad_precision { (result ≡ Err (shape, GeomFault.BadPrecision)) ↔ (¬ IsPrecision precision) }
        ensures bad_ids { (result ≡ Err (shape, GeomFault.BadIds)) ↔ (IsPrecision precision × (¬ HasFitIds shape)) }
    {
        if precision < LEAST_PRECISION || precision > GREATEST_PRECISION {
            return Err((shape, GeomFault::BadPrecision));
        }
        if !shape.has_fit_ids() {
            return Err((shape, GeomFault::BadIds));
        }
        Ok(Geometry { precision, shape })
    }

    /// The number of decimals of the geometry's coordinates, -8 to 7; each member of a collection
    /// has its own. Takes no memory.
    pub fn precision(&self) -> i8
        ensures value { result ≡ precision_of self.now }
        ensures sound { IsTree self.now }
        ensures in_range { IsTreeInRange self.now }
    {
        self.precision
    }

    /// The geometry's shape, as it was given. Takes no memory.
    pub fn shape(&self) -> &Shape
        ensures { tree_of (precision_of self.now) result.now ≡ self.now }
    {
        &self.shape
    }
}
