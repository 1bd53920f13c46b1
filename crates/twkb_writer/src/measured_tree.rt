//! The length of a geometry's canonical blob, measured on the geometry itself, without a flat form.
ghost use Rattle.std.specs.Prelude.{◌≡◌, ◌∷◌, [], suc, List, length};
ghost use Rattle.twkb_tree.specs.Limits.{largest_limits, IsValid};
ghost use Rattle.twkb_tree.specs.Rows.{Row as TableRow, rows_of_each, ring_rows, rows_with, rows_under, member_rows};
ghost use Rattle.twkb_tree.specs.Tree.{trees};
ghost use Rattle.twkb_flat.specs.declared.node.Row.{Row as FlatRow};
ghost use Rattle.twkb_flat.specs.Rows.{row_with};
ghost use Rattle.twkb_grammar.specs.Written.{canonical_blob};
ghost use Rattle.twkb_grammar.specs.declared.style.Style.TheVariants.{Full};
ghost use Rattle.twkb_writer.specs.MeasuredRows.{Awaits, Adds, part_row};

use crate::depths::Depths;
use crate::measured_rows::{before_row, take_points, take_row};
use crate::placed_points::RowPoints;
use crate::tails::TailTotals;
use std::slice::from_ref;
use twkb_flat::{Node, NodeId, PointId, Row, Work, own_row};
use twkb_grammar::Style;
use twkb_points::Pt;
use twkb_tree::{Element, Geometry, Ids, Kind, Lines, Members, Pts, Shape, id_at};

// What was measured of the rows of a geometry, from one of them to the last: rows are added from
// the last to the first, for the blob in full style. All rows together must be those of a geometry
// within `Limits::largest()`.
#[derive(Drop)]
struct RowPass {
    // The totals of the rows at each depth.
    depths: Depths,
    // The totals of the points of the rows before the first geometry among those added; of no
    // points if the row added last is one.
    tail: TailTotals,
}

impl RowPass {
    // Adds a row with these points before the rows added so far. Takes no memory.
    fn add(&mut self, row: Row, points: &[Pt])
        requires { Awaits self.old (row_with row points.now ∷ []) }
        ensures { Adds self.old (row_with row points.now ∷ []) self.new }
    {
        let node = Node {
            row,
            next: NodeId(0),
            first: PointId(0),
            points: points.len() as u32,
        };
        let listed = RowPoints { points };
        let totals = take_points(&listed, &node, self.tail, &mut Work::new());
        take_row(Style::Full, &node, &totals, &mut self.depths);
        self.tail = before_row(&node, totals);
    }
}

// A component of a geometry whose length is measured: a point, line, ring or polygon.
trait MeasuredComponent: Element {
    // The rows of the component, given its own row without the points.
    ghost rows: { FlatRow → Self → List TableRow };

    // Adds the rows of the component to the pass, before those added so far. `row` is its own row,
    // without the points. Takes no memory.
    fn add_to(&self, row: Row, pass: &mut RowPass)
        requires { Awaits pass.old (rows row self.now) }
        ensures { Adds pass.old (rows row self.now) pass.new };
}

impl MeasuredComponent for Pt {
    ghost rows = { λ row point. row_with row (point ∷ []) ∷ [] };

    fn add_to(&self, row: Row, pass: &mut RowPass) {
        pass.add(row, from_ref(self));
    }
}

impl MeasuredComponent for Pts {
    ghost rows = { λ row points. row_with row points ∷ [] };

    fn add_to(&self, row: Row, pass: &mut RowPass) {
        pass.add(row, self.as_slice());
    }
}

impl MeasuredComponent for Lines {
    ghost rows = { λ row rings. row_with row [] ∷ ring_rows (suc row.depth) rings };

    fn add_to(&self, row: Row, pass: &mut RowPass) {
        add_each(Kind::Ring, row.depth + 1, self.as_slice(), &None, pass);
        pass.add(row, &[]);
    }
}

// Adds the rows of components of this kind and depth, with these ids, to the pass. Takes no memory.
fn add_each<T: MeasuredComponent>(
    kind: Kind,
    depth: u32,
    components: &[T],
    ids: &Ids,
    pass: &mut RowPass,
)
    requires { Awaits pass.old (rows_of_each (λ id. T.rows (part_row kind depth id)) ids.now components.now) }
    ensures { Adds pass.old (rows_of_each (λ id. T.rows (part_row kind depth id)) ids.now components.now) pass.new }
{
    for index in (0..components.len()).rev() {
        let row = Row {
            depth,
            kind,
            id: id_at(ids, index),
            precision: None,
        };
        components[index].add_to(row, pass);
    }
}

// Adds the rows of a collection's members at this depth, with these ids, and of all that is inside
// them, to the pass. Takes no memory.
#[cycle(measuring)]
#[tactic(auto, using(twkb_tree::specs::Size::member_smaller))]
fn add_members(members: &Members, depth: u32, ids: &Ids, pass: &mut RowPass)
    requires { Awaits pass.old (member_rows depth ids.now (trees members.now)) }
    ensures { Adds pass.old (member_rows depth ids.now (trees members.now)) pass.new }
{
    let items = members.as_slice();
    for index in (0..items.len()).rev() {
        add_geometry(&items[index], depth, id_at(ids, index), pass);
    }
}

// Adds the rows below a geometry's own row, of which the first is at this depth, to the pass. Takes
// no memory.
#[cycle(measuring)]
fn add_under(geometry: &Geometry, depth: u32, pass: &mut RowPass)
    requires { Awaits pass.old (rows_under depth geometry.now) }
    ensures { Adds pass.old (rows_under depth geometry.now) pass.new }
{
    match geometry.shape() {
        Shape::Point(_) | Shape::Line(_) => {}
        Shape::Polygon(rings) => add_each(Kind::Ring, depth, rings.as_slice(), &None, pass),
        Shape::MultiPoint(points, ids) => {
            add_each(Kind::Point, depth, points.as_slice(), ids, pass)
        }
        Shape::MultiLine(lines, ids) => {
            add_each(Kind::Linestring, depth, lines.as_slice(), ids, pass)
        }
        Shape::MultiPolygon(areas, ids) => {
            add_each(Kind::Polygon, depth, areas.as_slice(), ids, pass)
        }
        Shape::Collection(members, ids) => add_members(members, depth, ids, pass),
    }
}

// Adds the row of a geometry at this depth, with this id, and the rows below it to the pass. Takes
// no memory.
#[cycle(measuring)]
fn add_geometry(geometry: &Geometry, depth: u32, id: Option<i64>, pass: &mut RowPass)
    requires { Awaits pass.old (rows_with id depth geometry.now) }
    ensures { Adds pass.old (rows_with id depth geometry.now) pass.new }
{
    let below = depth + 1;
    add_under(geometry, below, pass);
    let (row, points) = own_row(geometry, depth, id);
    pass.add(row, points);
}

/// The length in bytes of the canonical blob, in full style, of a geometry, which must be within
/// `Limits::largest()`. Takes no memory.
pub fn measure(geometry: &Geometry) -> u64
    requires { IsValid largest_limits geometry.now }
    ensures { result ≡ length (canonical_blob Full geometry.now) }
{
    let mut pass = RowPass {
        depths: Depths::new(),
        tail: TailTotals::none(),
    };
    add_geometry(geometry, 0, None, &mut pass);
    pass.depths.at(0).bytes
}
