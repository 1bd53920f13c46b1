//! Laws of the texts of geometries, each stated as the contract of an empty function.
ghost use Rattle.std.specs.Prelude.{◌≡◌, ◌↔◌, ℕ, ℤ, pos, negsuc, nat_abs, codes, ◌+◌, ◌-◌, ◌*◌, ◌^◌, ◌<◌, ◌≤◌};
ghost use Rattle.std.specs.Prelude.{List, [], ◌∷◌, ◌++◌, true, Some, None, option_and_then};
ghost use Rattle.std.specs.List.{AllByRecursion};
ghost use Rattle.twkb_points.specs.Point.{IsCoordinate};
ghost use Rattle.json.specs.Json.{document, null, number, string, array, object, no_items};
ghost use Rattle.json.specs.Json.{Members, no_members, member};
ghost use Rattle.twkb_tree.specs.Tree.{IsPrecision, Tree, simple, point, precision_of};
ghost use Rattle.twkb_tree.specs.Limits.{IsValid, largest_limits, has_precision, uniform};
ghost use Rattle.twkb_geojson.specs.Value.{geojson, value_of};
ghost use Rattle.twkb_geojson.specs.Reading.{geometry_named, features_named, units_said, whole_said, nearest};
ghost use Rattle.twkb_geojson.specs.Reading.{own_names, SameMember};
ghost use Rattle.twkb_geojson.specs.Collection.{collection_text, collection_value};
ghost use Rattle.twkb_geojson.specs.Coordinate.{coordinate_text, parts, Says, IsSameNumber};

/// The decimal of a coordinate says the coordinate, exactly.
pub fn exact()
    ensures { (precision units : ℤ) → IsPrecision precision → IsCoordinate units
        → Says (coordinate_text precision units) (parts precision (nat_abs units)) }
{}

/// Two coordinates have the same text exactly if they are the same number.
pub fn one_text()
    ensures { (p u q v : ℤ) → IsPrecision p → IsCoordinate u → IsPrecision q → IsCoordinate v
        → (coordinate_text p u ≡ coordinate_text q v) ↔ IsSameNumber p u q v }
{}

/// The text of a geometry that is valid under the largest limits is a JSON text (RFC 8259, as the
/// crate `json` defines it), and its value is the one that this crate defines for the geometry.
pub fn one_value()
    ensures { (g : Tree) → IsValid largest_limits g → document (geojson g) ≡ Some (value_of g) }
{}

/// The text of a collection of geometries that are valid under the largest limits is a JSON text and
/// LF, and its value is the FeatureCollection that this crate defines for the geometries.
pub fn one_collection()
    ensures { (gs : List Tree) → AllByRecursion (IsValid largest_limits) gs → (text : List ℕ)
        × (collection_text gs ≡ text ++ 10 ∷ []) × (document text ≡ Some (collection_value gs)) }
{}

/// The text of a geometry that is valid under the largest limits says that geometry, exactly if its
/// members have its precision: the value of the text names it at its precision.
pub fn read_back()
    ensures { (g : Tree) → IsValid largest_limits g
        → (option_and_then (geometry_named (precision_of g)) (document (geojson g)) ≡ Some g) ↔ (uniform g ≡ true) }
{}

/// The text of a collection of geometries that are valid under the largest limits, and all have the
/// precision p, is a JSON text and LF, and its value names these geometries at p.
pub fn collection_back()
    ensures { (p : ℤ) (gs : List Tree) → AllByRecursion (IsValid largest_limits) gs
        → AllByRecursion (λ g. has_precision p g ≡ true) gs → (text : List ℕ)
        × (collection_text gs ≡ text ++ 10 ∷ []) × (option_and_then (features_named p) (document text) ≡ Some gs) }
{}

/// Of valid geometries of one precision, which their members have too, no two have the same text.
pub fn one_geometry()
    ensures { (g h : Tree) → IsValid largest_limits g → IsValid largest_limits h → uniform g ≡ true
        → uniform h ≡ true → precision_of g ≡ precision_of h → geojson g ≡ geojson h → g ≡ h }
{}

/// What an object names is told by its members of the names that `own_names` lists, whatever other
/// members it has and whatever their order.
pub fn by_name()
    ensures { (p : ℤ) (ms ns : Members) → AllByRecursion (λ name. SameMember name ms ns) own_names
        → geometry_named p (object ms) ≡ geometry_named p (object ns) }
{}

/// The nearest whole number to a fraction is at most a half from it, and of two the greater.
pub fn half_up()
    ensures { (above below : ℕ) → 0 < below → (2 * (nearest above below * below) ≤ 2 * above + below)
        × (2 * above < 2 * (nearest above below * below) + below) }
{}

/// Checks by computation that decimals are as RFC 8259 and the choices of this project have them,
/// at both ends of the units and of the precisions.
pub fn samples()
    ensures half { coordinate_text (pos 1) (negsuc 4) ≡ codes "-0.5" }
    ensures zero { coordinate_text (pos 7) (pos 0) ≡ codes "0" }
    ensures example { coordinate_text (pos 5) (negsuc 12094999) ≡ codes "-120.95" }
    ensures whole { coordinate_text (pos 3) (pos 7000) ≡ codes "7" }
    ensures least { coordinate_text (pos 7) (negsuc (2 ^ 62 - 1)) ≡ codes "-461168601842.7387904" }
    ensures tens { coordinate_text (negsuc 7) (pos (2 ^ 62 - 1)) ≡ codes "461168601842738790300000000" }
{}

/// Checks by computation what numbers say: exponents, a half away from 0, and whole numbers.
pub fn readings()
    ensures plain { units_said (pos 5) (codes "-120.95") ≡ negsuc 12094999 }
    ensures half { units_said (pos 0) (codes "2.5") ≡ pos 3 }
    ensures minus_half { units_said (pos 0) (codes "-2.5") ≡ negsuc 2 }
    ensures below_half { units_said (pos 0) (codes "-0.49") ≡ pos 0 }
    ensures smaller { units_said (pos 1) (codes "25E-2") ≡ pos 3 }
    ensures greater { units_said (negsuc 0) (codes "1.2e+2") ≡ pos 12 }
    ensures whole { whole_said (number (codes "70e-1")) ≡ Some (pos 7) }
    ensures no_whole { whole_said (number (codes "-7.5")) ≡ None }
{}

/// Checks by computation what objects name: an empty point, its type last; and nothing if a name comes
/// twice.
pub fn objects()
    ensures empty { geometry_named (pos 5) (object (member (codes "coordinates") (array no_items)
        (member (codes "type") (string (codes "Point")) no_members))) ≡ Some (simple (pos 5) (point None)) }
    ensures twice { geometry_named (pos 5) (object (member (codes "type") (string (codes "Point"))
        (member (codes "coordinates") (array no_items) (member (codes "type") null no_members)))) ≡ None }
{}
