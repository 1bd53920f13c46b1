//! The header of a TWKB geometry: type byte, metadata byte, size and box.
ghost use Rattle.std.specs.Prelude.{◌≡◌};
ghost use Rattle.twkb_writer.specs.Bytes.{is_bare, metadata_of, size_bytes, box_bytes, Put};
ghost use Rattle.twkb_writer.specs.Nodes.{header_of};

use crate::gatherer::Gatherer;
use crate::sizes::Entry;
use twkb_flat::Node;
use twkb_grammar::{Metadata, MetadataFlags, Style, TypeByte};
use twkb_io::Sink;

// Whether the geometry of an entry has no body: its own row has no points (`points` is 0), and it
// has no members or rings.
pub(crate) fn has_no_body(points: u32, entry: &Entry) -> bool
    ensures { result ≡ is_bare points entry.now }
{
    points == 0 && entry.members == 0
}

// The metadata byte, in a style, of the geometry of an entry whose own row has `points` points.
fn metadata(style: Style, points: u32, entry: &Entry) -> Metadata
    ensures { result ≡ metadata_of style points entry.now }
{
    let is_empty = has_no_body(points, entry);
    Metadata::of(MetadataFlags {
        has_box: style.is_full() && entry.bounds.is_some(),
        has_size: style.is_full(),
        has_ids: !is_empty && entry.named,
        is_empty,
    })
}

// Puts the size of an entry as its shortest varint in full style; nothing in plain style.
fn put_size<S: Sink>(style: Style, entry: &Entry, gatherer: &mut Gatherer<'_, '_, '_, S, S::Fault>)
    ensures { Put S.took S.refused gatherer.old (size_bytes style entry.now) gatherer.new }
{
    match style {
        Style::Full => gatherer.put_number(entry.size),
        Style::Plain => {}
    }
}

// Puts the box of an entry: least x, width, least y and height, each as the shortest varint of its
// zigzag form; nothing if it has none.
fn put_box<S: Sink>(entry: &Entry, gatherer: &mut Gatherer<'_, '_, '_, S, S::Fault>)
    ensures { Put S.took S.refused gatherer.old (box_bytes entry.now.bounds) gatherer.new }
{
    match entry.bounds {
        Some(bounds) => {
            let [least_x, width, least_y, height] = bounds.items();
            gatherer.put_four(least_x, width, least_y, height);
        }
        None => {}
    }
}

// Puts the header of a geometry whose own row is the node, with this precision, from -8 to 7: type
// byte and metadata byte, the size in full style, and the box if its entry has one.
pub(crate) fn put_header<S: Sink>(
    style: Style,
    node: &Node,
    precision: i8,
    entry: &Entry,
    gatherer: &mut Gatherer<'_, '_, '_, S, S::Fault>,
)
    ensures { Put S.took S.refused gatherer.old (header_of style precision entry.now node.now) gatherer.new }
{
    let kind = TypeByte::of(node.row.kind, precision).byte();
    let flags = metadata(style, node.points, entry).byte();
    gatherer.put_two(kind, flags);
    put_size(style, entry, gatherer);
    put_box(entry, gatherer);
}
