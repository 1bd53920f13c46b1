//! The blob of one line, written without a form and without a vector of sizes.
ghost use Rattle.std.specs.Prelude.{◌≡◌, ◌≤◌, [], length, OnOk, IfErr};
ghost use Rattle.twkb_tree.specs.Tree.{IsPrecision};
ghost use Rattle.twkb_tree.specs.declared.kind.Kind.TheVariants.{Linestring};
ghost use Rattle.twkb_tree.specs.declared.limits.TheConstants.{POINTS_CAP};
ghost use Rattle.twkb_io.specs.Sinks.{TookFront};
ghost use Rattle.twkb_grammar.specs.Written.{canonical_blob};
ghost use Rattle.twkb_writer.specs.Bytes.{geometry_lead, one_line, MeasuresLine, Put};
ghost use Rattle.twkb_writer.specs.Nodes.{ReadsExactly};
ghost use Rattle.twkb_writer.specs.Sizes.{entry_of};

use crate::gatherer::Gatherer;
use crate::header::{has_no_body, put_header};
use crate::measured_rows::{count_measured, take_points};
use crate::piece::Piece;
use crate::placed_points::ListedPoints;
use crate::points::put_points;
use crate::sizes::Entry;
use crate::tails::TailTotals;
use crate::totals::RowTotals;
use twkb_flat::{Node, NodeId, PointId, Row, Work, reads_fit};
use twkb_grammar::Style;
use twkb_io::Sink;
use twkb_points::{Cursor, PointList};
use twkb_tree::Kind;

// The node of the only row of a line with this precision and this number of points.
#[inline(always)]
fn line_node(precision: i8, points: u32) -> Node
    ensures kind { result.row.kind ≡ Linestring }
    ensures first { result.first.0 ≡ 0 }
    ensures points { result.points ≡ points }
{
    Node {
        row: Row {
            depth: 0,
            kind: Kind::Linestring,
            id: None,
            precision: Some(precision),
        },
        next: NodeId(1),
        first: PointId(0),
        points,
    }
}

// The entry, in a style, of the line through a list's points, which must be at most 2^24. The node
// must be as `line_node` makes it for them. Counts as many reads of points as there are points.
#[inline(always)]
fn line_entry<L: PointList>(
    style: Style,
    node: &Node,
    precision: i8,
    line: &ListedPoints<'_, L>,
    work: &mut Work,
) -> Entry
    requires first { node.now.first.0 ≡ 0 }
    requires count { node.now.points ≡ length (L.points line.now.list.now) }
    requires few { length (L.points line.now.list.now) ≤ POINTS_CAP }
    ensures value { result ≡ entry_of style (one_line precision (L.points line.now.list.now)) }
    ensures reads { ReadsExactly work.old 0 (length (L.points line.now.list.now)) work.new }
{
    let points = take_points(line, node, TailTotals::none(), work);
    RowTotals::blank().entry_for(style, Kind::Linestring, precision, node.points, &points)
}

// Puts the bytes of a line's blob before its points: the header and, if it has points, their
// number. The node must be that of a linestring.
#[inline(always)]
fn put_line_lead<S: Sink>(
    style: Style,
    node: &Node,
    precision: i8,
    entry: &Entry,
    gatherer: &mut Gatherer<'_, '_, '_, S, S::Fault>,
)
    requires { node.now.row.kind ≡ Linestring }
    ensures { Put S.took S.refused gatherer.old
        (geometry_lead style precision entry.now Linestring 0 node.now.points []) gatherer.new }
{
    put_header(style, node, precision, entry, gatherer);
    if has_no_body(node.points, entry) {
        return;
    }
    gatherer.put_number(node.points as u64);
}

/// Writes the canonical blob of the line through a list's points, which must be at most 2^24, in a
/// style and for a precision from -8 to 7; after an `Err` the sink got a prefix of it. Counts one
/// node, one entry and the points as measured, and twice as many reads of points as there are
/// points. The bytes go through the piece, whatever it holds. Takes no memory itself.
#[inline(always)]
pub fn write_line<L: PointList, S: Sink>(
    precision: i8,
    list: &L,
    style: Style,
    piece: &mut Piece,
    sink: &mut S,
    work: &mut Work,
) -> Result<(), S::Fault>
    requires few { length (L.points list.now) ≤ POINTS_CAP }
    ensures ok { OnOk result (IsPrecision precision
        → S.took sink.old (canonical_blob style (one_line precision (L.points list.now))) sink.new) }
    ensures err { IfErr result (λ fault. IsPrecision precision
        → TookFront S.refused sink.old (canonical_blob style (one_line precision (L.points list.now))) fault sink.new) }
    ensures work { MeasuresLine work.old (length (L.points list.now)) work.new }
{
    let count = list.count() as u32;
    count_measured(count, 1, 1, work);
    reads_fit(*work);
    let node = line_node(precision, count);
    let line = ListedPoints { list };
    let entry = line_entry(style, &node, precision, &line, work);
    piece.clear();
    let mut fault = None;
    let mut gatherer = Gatherer {
        sink,
        piece,
        fault: &mut fault,
    };
    put_line_lead(style, &node, precision, &entry, &mut gatherer);
    put_points(&line, &node, &mut Cursor::origin(), &mut gatherer, work);
    gatherer.flush();
    match fault {
        Some(fault) => Err(fault),
        None => Ok(()),
    }
}
