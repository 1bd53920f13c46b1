//! The rules for a row under its parent, by the parent's open row.
ghost use Rattle.std.specs.Prelude.{◌≡◌, ℤ, List, length, Option, is_some};
ghost use Rattle.twkb_points.specs.Point.{Point};
ghost use Rattle.twkb_tree.specs.Admits.{may_have, has_place, is_geometry, id_allowed, has_same_ids};
ghost use Rattle.twkb_tree.specs.Admits.{has_needed_precision, precision_allowed, points_fit, has_points, nest_kept};
ghost use Rattle.twkb_tree.specs.Open.{row_of, child_of};

use crate::kind::Kind;
use crate::limits::Limits;
use crate::open_rows::OpenRow;

/// Whether a row of the kind `parent` may have a child of the kind `child` (profile). Takes no
/// memory.
pub fn may_have(parent: Kind, child: Kind) -> bool
    ensures value { result ≡ may_have parent child }
{
    match parent {
        Kind::Polygon => child == Kind::Ring,
        Kind::MultiPoint => child == Kind::Point,
        Kind::MultiLinestring => child == Kind::Linestring,
        Kind::MultiPolygon => child == Kind::Polygon,
        Kind::Collection => child != Kind::Ring,
        Kind::Point | Kind::Linestring | Kind::Ring => false,
    }
}

/// Whether a row may have this kind under its parent, or as a root if there is none: a root may be
/// anything but a ring. Takes no memory.
pub fn has_place(parent: Option<OpenRow>, kind: Kind) -> bool
    ensures value { result ≡ has_place (row_of parent) kind }
{
    match parent {
        None => kind != Kind::Ring,
        Some(row) => may_have(row.kind, kind),
    }
}

/// Whether a row under this parent is a geometry itself: a root, which has no parent, or a member
/// of a collection. Takes no memory.
pub fn is_geometry(parent: Option<OpenRow>) -> bool
    ensures value { result ≡ is_geometry (row_of parent) }
{
    match parent {
        None => true,
        Some(row) => row.kind == Kind::Collection,
    }
}

/// Whether a member of a collection, at this depth, is in no more collections than the limits
/// allow; true if the parent is no collection, and for a root. Takes no memory.
pub fn nest_kept(limits: &Limits, parent: Option<OpenRow>, depth: u32) -> bool
    ensures value { result ≡ nest_kept limits.now (row_of parent) depth }
{
    match parent {
        None => true,
        Some(row) => row.kind != Kind::Collection || depth <= limits.nest(),
    }
}

/// Whether a row has no id or may have one: a root and a ring may not. Takes no memory.
pub fn id_allowed(parent: Option<OpenRow>, kind: Kind, has_id: bool) -> bool
    ensures value { (id : Option ℤ) → is_some id ≡ has_id → id_allowed (row_of parent) kind id ≡ result }
{
    !has_id || (parent.is_some() && kind != Kind::Ring)
}

/// Whether a row has an id exactly if the first child of its parent has one; true for a root, and
/// for a first child. Takes no memory.
pub fn has_same_ids(parent: Option<OpenRow>, has_id: bool) -> bool
    ensures value { (id : Option ℤ) → is_some id ≡ has_id → has_same_ids (child_of parent) id ≡ result }
{
    match parent {
        None => true,
        Some(row) => match row.child_ids {
            None => true,
            Some(first) => first == has_id,
        },
    }
}

/// Whether a row has a precision or needs none: a root and a member of a collection need one. Takes
/// no memory.
pub fn has_needed_precision(parent: Option<OpenRow>, has_precision: bool) -> bool
    ensures value { (precision : Option ℤ) → is_some precision ≡ has_precision
        → has_needed_precision (row_of parent) precision ≡ result }
{
    !is_geometry(parent) || has_precision
}

/// Whether a row has no precision or may have one: a root and a member of a collection may. Takes
/// no memory.
pub fn precision_allowed(parent: Option<OpenRow>, has_precision: bool) -> bool
    ensures value { (precision : Option ℤ) → is_some precision ≡ has_precision
        → precision_allowed (row_of parent) precision ≡ result }
{
    is_geometry(parent) || !has_precision
}

/// Whether rows of this kind hold points themselves: points, linestrings and rings do. Takes no
/// memory.
pub fn has_points(kind: Kind) -> bool
    ensures value { result ≡ has_points kind }
{
    matches!(kind, Kind::Point | Kind::Linestring | Kind::Ring)
}

/// Whether a row of this kind may have `count` points: a point one, or none if the row is a
/// geometry itself (`whole`); a linestring or a ring any number; any other kind none. Takes no
/// memory.
pub fn count_fits(kind: Kind, whole: bool, count: usize) -> bool
    ensures value { (points : List Point) → length points ≡ count → points_fit kind whole points ≡ result }
{
    match kind {
        Kind::Point => count == 1 || (count == 0 && whole),
        Kind::Linestring | Kind::Ring => true,
        _ => count == 0,
    }
}
