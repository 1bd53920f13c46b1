//! Laws of differences and extents, each stated as the contract of an empty function.
ghost use Rattle.std.specs.Prelude.{◌≡◌, ◌↔◌, ℤ, List, [], ◌∷◌, ◌++◌};
ghost use Rattle.twkb_points.specs.Point.{Point};
ghost use Rattle.twkb_points.specs.Steps.{differences, points_of, AreDifferences};
ghost use Rattle.twkb_points.specs.Extent.{Extent, joined, joined_options, extent, tight, IsExtentOf, IsBox};

/// Pairs of numbers are the differences of a list of points exactly if, place by place, they are
/// its first point, and then each point less the one before it (TWKB; Encoded Polyline Algorithm
/// Format).
pub fn differences_by_place()
    ensures { (ps : List Point) (ds : List (ℤ × ℤ)) → (ds ≡ differences ps) ↔ AreDifferences ps ds }
{}

/// The differences of a list of points lead to that list, and the points that differences lead to
/// have those differences.
pub fn there_and_back()
    ensures points { (ps : List Point) → points_of (differences ps) ≡ ps }
    ensures differences { (ds : List (ℤ × ℤ)) → differences (points_of ds) ≡ ds }
{}

/// No two lists of points have the same differences.
pub fn one_list()
    ensures { (ps qs : List Point) → differences ps ≡ differences qs → ps ≡ qs }
{}

/// An extent is that of a list of points exactly if its corners hold the least and the greatest
/// coordinates of the points.
pub fn extent_by_bounds()
    ensures { (ps : List Point) (e : Extent) → (extent ps ≡ Some e) ↔ IsExtentOf e ps }
{}

/// The extent of two lists, one after the other, is the join of their extents. If one list is
/// empty, it is the extent of the other, or none.
pub fn extents_join()
    ensures { (ps qs : List Point) → extent (ps ++ qs) ≡ joined_options (extent ps) (extent qs) }
{}

/// If two extents hold the least and the greatest coordinates of two lists, their join holds those
/// of both lists together.
pub fn spans_join()
    ensures { (a b : Extent) (ps qs : List Point) → IsExtentOf a ps → IsExtentOf b qs
        → IsExtentOf (joined a b) (ps ++ qs) }
{}

/// Four numbers are the box numbers of a list of points exactly if they are the least x, the width
/// in x, the least y and the width in y of the box that holds the points and is reached on each
/// side (TWKB, bounding box).
pub fn box_by_bounds()
    ensures { (ps : List Point) (x width y height : ℤ) → (tight ps ≡ x ∷ width ∷ y ∷ height ∷ [])
        ↔ IsBox ps x width y height }
{}
