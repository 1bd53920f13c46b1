//! Building a geometry from its flat form.
ghost use Rattle.std.specs.Prelude.{◌≡◌, [], ℕ, ℤ, List, Option, drop, IfOk, OnOk, ◌++◌};
ghost use Rattle.twkb_tree.specs.declared.kind.Kind.{Kind};
ghost use Rattle.twkb_tree.specs.Limits.{largest_limits, IsValid};
ghost use Rattle.twkb_tree.specs.Shape.{tree_of};
ghost use Rattle.twkb_tree.specs.Tree.{Ids, Tree, IsTree, precision_of};
ghost use Rattle.twkb_tree.specs.Rows.{Row as TableRow, rows, rows_with};
ghost use Rattle.twkb_flat.specs.Taking.{TreeAt, SimpleAt, EachAt, ComponentsAt, AreOf, ids_in, id_list};

use crate::components::Component;
use crate::flat::Flat;
use std::alloc::{AllocError, Global};
use twkb_tree::{Elements, Geometry, IdList, Ids, Kind, Members, Pts, Shape};

impl Flat {
    /// Builds the geometry whose rows the form has; there must be at least one. Takes memory for
    /// each list of the geometry; an `Err` is that memory was refused.
    pub fn to_geometry(&self, alloc: Global) -> Result<Geometry, AllocError>
        requires { ¬ (self.now ≡ []) }
        ensures rows { IfOk result (λ g. rows 0 g ≡ self.now) }
        ensures valid { IfOk result (λ g. IsValid largest_limits g) }
    {
        // lets proofs know that the rows are those of one geometry
        let _learnt = self.is_empty();
        let (geometry, _next) = take_geometry(self, alloc, 0)?;
        Ok(geometry)
    }
}

// Builds the geometry whose first row is at place `at`, and returns it and the place after its last
// row. The row at `at` must be a root or a member of a collection. Takes memory.
#[cycle(building)]
fn take_geometry(flat: &Flat, alloc: Global, at: usize) -> Result<(Geometry, usize), AllocError>
    requires { (d : ℕ) × (id : Option ℤ) × (g : Tree) × (rest : List TableRow) × TreeAt flat.now at d id g rest }
    ensures { (d : ℕ) (id : Option ℤ) (g : Tree) (rest : List TableRow)
        → TreeAt flat.now at d id g rest → IfOk result (λ taken. (taken.0 ≡ g)
        × (drop taken.1 flat.now ≡ rest)) }
{
    let precision = flat.row(at).precision;
    let (shape, next) = take_shape(flat, alloc, at)?;
    Ok((made_of(precision, shape), next))
}

// Makes the geometry of a precision and a shape. The precision must be there, and
// `Geometry::try_new` must accept both.
fn made_of(precision: Option<i8>, shape: Shape) -> Geometry
    requires { (g : Tree) × AreOf precision shape g }
    ensures { (g : Tree) → AreOf precision shape g → result ≡ g }
{
    let Some(precision) = precision else {
        unreachable!()
    };
    match Geometry::try_new(precision, shape) {
        Ok(geometry) => geometry,
        Err(_) => unreachable!(),
    }
}

// Builds the shape of the geometry whose first row is at place `at`, and returns it and the place
// after the geometry's last row. The row at `at` must be a root or a member of a collection. Takes
// memory.
#[cycle(building)]
fn take_shape(flat: &Flat, alloc: Global, at: usize) -> Result<(Shape, usize), AllocError>
    requires { (d : ℕ) × (id : Option ℤ) × (g : Tree) × (rest : List TableRow) × TreeAt flat.now at d id g rest }
    ensures { (d : ℕ) (id : Option ℤ) (g : Tree) (rest : List TableRow)
        → TreeAt flat.now at d id g rest → IfOk result
        (λ taken. (tree_of (precision_of g) taken.0 ≡ g) × (drop taken.1 flat.now ≡ rest)) }
{
    let row = flat.row(at);
    match row.kind {
        Kind::Collection => {
            let (members, ids, next) = take_members(flat, alloc, at + 1, row.depth + 1)?;
            Ok((Shape::Collection(members, ids), next))
        }
        _ => take_simple(flat, alloc, at),
    }
}

// Builds the shape of the geometry whose first row is at place `at`, and returns it and the place
// after the geometry's last row. The row at `at` must be a root or a member of a collection, and
// must not be a collection itself. Takes memory.
fn take_simple(flat: &Flat, alloc: Global, at: usize) -> Result<(Shape, usize), AllocError>
    requires { (d : ℕ) × (id : Option ℤ) × (g : Tree) × (rest : List TableRow) × SimpleAt flat.now at d id g rest }
    ensures { (d : ℕ) (id : Option ℤ) (g : Tree) (rest : List TableRow)
        → TreeAt flat.now at d id g rest → IfOk result
        (λ taken. (tree_of (precision_of g) taken.0 ≡ g) × (drop taken.1 flat.now ≡ rest)) }
{
    let row = flat.row(at);
    let below = at + 1;
    let depth = row.depth + 1;
    match row.kind {
        Kind::Point => {
            let point = flat.own_points(at).first().copied();
            Ok((Shape::Point(point), below))
        }
        Kind::Linestring => {
            let points = Vec::from_slice(alloc, flat.own_points(at))?;
            Ok((Shape::Line(Pts::from_vec(points)), below))
        }
        Kind::Polygon => {
            let (rings, _ids, next) = take_each(flat, alloc, below, depth)?;
            Ok((Shape::Polygon(rings), next))
        }
        Kind::MultiPoint => {
            let (points, ids, next) = take_each(flat, alloc, below, depth)?;
            Ok((Shape::MultiPoint(points, ids), next))
        }
        Kind::MultiLinestring => {
            let (lines, ids, next) = take_each(flat, alloc, below, depth)?;
            Ok((Shape::MultiLine(lines, ids), next))
        }
        Kind::MultiPolygon => {
            let (areas, ids, next) = take_each(flat, alloc, below, depth)?;
            Ok((Shape::MultiPolygon(areas, ids), next))
        }
        Kind::Collection | Kind::Ring => unreachable!(),
    }
}

// Builds the members of a collection: the geometries that follow one another from place `start` on,
// each with its first row at `depth`. Returns them, their ids (`None` if they have none) and the
// place after their last row. Takes memory.
#[cycle(building)]
fn take_members(
    flat: &Flat,
    alloc: Global,
    start: usize,
    depth: u32,
) -> Result<(Members, Ids, usize), AllocError>
    requires { (ids : Ids) × (gs : List Tree) × (rest : List TableRow)
        × EachAt IsTree (λ id g. rows_with id depth g) flat.now start depth ids gs rest }
    ensures { (ids : Ids) (gs : List Tree) (rest : List TableRow)
        → EachAt IsTree (λ id g. rows_with id depth g) flat.now start depth ids gs rest
        → IfOk result (λ taken. (taken.0 ≡ gs) × (taken.1 ≡ ids) × (drop taken.2 flat.now ≡ rest)) }
{
    let mut members = Vec::new(alloc);
    let mut ids = Vec::new(alloc);
    let mut at = start;
    while flat.is_at(at, depth) {
        push_id(&mut ids, flat.row(at).id)?;
        let (member, next) = take_geometry(flat, alloc, at)?;
        members.push(member)?;
        at = next;
    }
    Ok((Members::from_vec(members), found_ids(ids), at))
}

// Builds the members of a multi-geometry or the rings of a polygon: the components that follow one
// another from place `start` on, each with its first row at `depth`. Returns them, their ids
// (`None` if they have none) and the place after their last row. Takes memory.
pub(crate) fn take_each<T: Component>(
    flat: &Flat,
    alloc: Global,
    start: usize,
    depth: u32,
) -> Result<(Elements<T>, Ids, usize), AllocError>
    requires { (kind : Kind) × (ids : Ids) × (components : List T) × (rest : List TableRow)
        × ComponentsAt T.own T.below kind flat.now start depth ids components rest }
    ensures { (kind : Kind) (ids : Ids) (components : List T) (rest : List TableRow)
        → ComponentsAt T.own T.below kind flat.now start depth ids components rest
        → IfOk result (λ taken. (taken.0 ≡ components) × (taken.1 ≡ ids)
        × (drop taken.2 flat.now ≡ rest)) }
{
    let mut components = Vec::new(alloc);
    let mut ids = Vec::new(alloc);
    let mut at = start;
    while flat.is_at(at, depth) {
        push_id(&mut ids, flat.row(at).id)?;
        let (component, next) = T::take(flat, alloc, at)?;
        components.push(component)?;
        at = next;
    }
    Ok((Elements::from_vec(components), found_ids(ids), at))
}

// Appends an id to the ids, or nothing if it is `None`. Takes memory.
fn push_id(ids: &mut Vec<i64>, id: Option<i64>) -> Result<(), AllocError>
    ensures { OnOk result (ids.new.items ≡ ids.old.items ++ id_list id) }
{
    if let Some(id) = id {
        ids.push(id)?;
    }
    Ok(())
}

// Makes the ids of a shape from a list of ids; `None`, for members without ids, if it is empty.
fn found_ids(ids: Vec<i64>) -> Ids
    ensures { result ≡ ids_in ids.items }
{
    if ids.is_empty() {
        return None;
    }
    Some(IdList::from_vec(ids))
}
