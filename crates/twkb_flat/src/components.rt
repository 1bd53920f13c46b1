//! Components of geometries that are not geometries themselves: points, lines, rings and polygons.
ghost use Rattle.std.specs.Prelude.{◌≡◌, ◌++◌, ◌∷◌, [], ℕ, ℤ, List, Option, drop, OnOk, IfOk};
ghost use Rattle.twkb_points.specs.Point.{Point};
ghost use Rattle.twkb_tree.specs.Limits.{largest_limits};
ghost use Rattle.twkb_tree.specs.Rows.{Row as TableRow, ring_rows, AreValidRowsOfOne};
ghost use Rattle.twkb_tree.specs.declared.kind.Kind.{Kind};
ghost use Rattle.twkb_flat.specs.Taking.{component_rows, OneAt, IsAny};

use crate::built_geometry::take_each;
use crate::flat::Flat;
use crate::geometry_rows::push_each;
use std::alloc::{AllocError, Global};
use std::slice::from_ref;
use twkb_points::Pt;
use twkb_tree::{Element, Kind, Lines, Pts};

// A member of a multi-geometry or a ring of a polygon: a point, a line or ring, or a polygon.
pub(crate) trait Component: Element {
    // The points of the component's own row.
    ghost own: { Self → List Point };

    // The rows below the component's own, starting at a depth.
    ghost below: { ℕ → Self → List TableRow };

    // The points of the component's own row: its point, all points of a line or ring, none of a
    // polygon. Takes no memory.
    fn own_points(&self) -> &[Pt]
        ensures { result.now ≡ own self.now };

    // Appends the rows below the component's own row to the form: one for each ring of a polygon,
    // at `depth`; none for a point, a line or a ring. They must continue the form's rows within
    // `Limits::largest()`. Takes memory; after an `Err` some of them may be appended.
    fn push_below(&self, depth: u32, flat: &mut Flat) -> Result<(), AllocError>
        requires valid { AreValidRowsOfOne largest_limits (flat.old ++ below depth self.now) }
        ensures { OnOk result (flat.new ≡ flat.old ++ below depth self.now) };

    // Builds the component of this type whose first row is at place `at`, and returns it and the
    // place after its last row. The row at `at` must be that of one. Takes memory for lines, rings
    // and polygons.
    fn take(flat: &Flat, alloc: Global, at: usize) -> Result<(Self, usize), AllocError>
        requires stands { (kind : Kind) × (d : ℕ) × (id : Option ℤ) × (component : Self)
            × (rest : List TableRow) × OneAt IsAny (component_rows own below kind d) flat.now at d id
            component rest }
        ensures { (kind : Kind) (d : ℕ) (id : Option ℤ) (component : Self) (rest : List TableRow)
            → OneAt IsAny (component_rows own below kind d) flat.now at d id component rest
            → IfOk result (λ taken. (taken.0 ≡ component) × (drop taken.1 flat.now ≡ rest)) };
}

impl Component for Pt {
    ghost own = { λ point. point ∷ [] };

    ghost below = { λ depth point. [] };

    fn own_points(&self) -> &[Pt] {
        from_ref(self)
    }

    fn push_below(&self, _depth: u32, _flat: &mut Flat) -> Result<(), AllocError> {
        Ok(())
    }

    fn take(flat: &Flat, _alloc: Global, at: usize) -> Result<(Pt, usize), AllocError> {
        let point = flat.own_points(at)[0];
        Ok((point, at + 1))
    }
}

impl Component for Pts {
    ghost own = { λ points. points };

    ghost below = { λ depth points. [] };

    fn own_points(&self) -> &[Pt] {
        self.as_slice()
    }

    fn push_below(&self, _depth: u32, _flat: &mut Flat) -> Result<(), AllocError> {
        Ok(())
    }

    fn take(flat: &Flat, alloc: Global, at: usize) -> Result<(Pts, usize), AllocError> {
        let points = Vec::from_slice(alloc, flat.own_points(at))?;
        Ok((Pts::from_vec(points), at + 1))
    }
}

impl Component for Lines {
    ghost own = { λ rings. [] };

    ghost below = { ring_rows };

    fn own_points(&self) -> &[Pt] {
        &[]
    }

    fn push_below(&self, depth: u32, flat: &mut Flat) -> Result<(), AllocError> {
        push_each(Kind::Ring, depth, self.as_slice(), &None, flat)
    }

    fn take(flat: &Flat, alloc: Global, at: usize) -> Result<(Lines, usize), AllocError> {
        let row = flat.row(at);
        let (rings, _ids, next) = take_each(flat, alloc, at + 1, row.depth + 1)?;
        Ok((rings, next))
    }
}
