//! The totals of the rows at one depth, which give the size of the geometry above them.
ghost use Rattle.std.specs.Prelude.{◌≡◌, ◌+◌, ◌≤◌, ◌^◌};
ghost use Rattle.twkb_writer.specs.Sizes.{weights_cap, sums_cap};
ghost use Rattle.twkb_writer.specs.Totals.{blank, lead_len, body_len, all_bounds, box_for, box_len, id_len, is_point};
ghost use Rattle.twkb_writer.specs.Totals.{entry_for, blob_len, with_component, with_geometry};
ghost use Rattle.twkb_grammar.specs.declared.style.Style.TheVariants.{Full};

use crate::lengths::{number_len, signed_len};
use crate::precisions::Precisions;
use crate::sizes::Entry;
use crate::tails::TailTotals;
use twkb_grammar::Style;
use twkb_points::{Bounds, merged};
use twkb_tree::Kind;

// Totals of the rows at one depth, from a row to the last before a row of smaller depth, with those
// of all rows below them. Each `ids` and `bytes` that a method adds up must be at most 2^40, so
// that no sum overflows.
#[derive(Clone, Copy)]
pub(crate) struct RowTotals {
    // The number of rows at this depth.
    pub(crate) members: u32,
    // The number of bytes of the ids of these rows.
    pub(crate) ids: u64,
    // Whether one of these rows has an id.
    pub(crate) named: bool,
    // The number of bytes of the geometries, and of the counts of the components.
    pub(crate) bytes: u64,
    // The bounds of the points of the geometries.
    pub(crate) bounds: Option<Bounds>,
    // The precisions of the geometries.
    pub(crate) precisions: Precisions,
}

// The number of bytes of an id, as the shortest varint of its zigzag form, at most 10; 0 if there
// is none.
#[inline(always)]
fn id_len(id: Option<i64>) -> u64
    ensures value { result ≡ id_len id }
    ensures most { result ≤ 10 }
{
    match id {
        Some(id) => signed_len(id),
        None => 0,
    }
}

// The number of bytes of the box with these bounds, at most 40; 0 if there is none.
#[inline(always)]
fn box_len(bounds: &Option<Bounds>) -> u64
    ensures value { result ≡ box_len bounds.now }
    ensures most { result ≤ 40 }
{
    match bounds {
        Some(bounds) => {
            let [x, width, y, height] = bounds.items();
            signed_len(x) + signed_len(width) + signed_len(y) + signed_len(height)
        }
        None => 0,
    }
}

// Whether the kind is `Point`.
fn is_point(kind: Kind) -> bool
    ensures { result ≡ is_point kind }
{
    matches!(kind, Kind::Point)
}

// The number of bytes of a TWKB geometry in a style, from its type byte on, if its box and body
// have `size` bytes, which must be at most 2^50.
#[inline(always)]
fn blob_len(style: Style, size: u64) -> u64
    requires room { size ≤ 2 ^ 50 }
    ensures value { result ≡ blob_len style size }
    ensures most { result ≤ size + 12 }
{
    match style {
        Style::Full => 2 + number_len(size) + size,
        Style::Plain => 2 + size,
    }
}

impl RowTotals {
    // Makes the totals of no rows.
    pub(crate) fn blank() -> RowTotals
        ensures { result ≡ blank }
    {
        RowTotals {
            members: 0,
            ids: 0,
            named: false,
            bytes: 0,
            bounds: None,
            precisions: Precisions::Absent,
        }
    }

    // The number of bytes of the count of a row above the rows of `self`, and of the ids if it
    // counts members; 0 for a point. The row has `own` points itself.
    #[inline(always)]
    fn lead_len(&self, kind: Kind, own: u32) -> u64
        requires room { self.now.ids ≤ sums_cap }
        ensures value { result ≡ lead_len kind own self.now }
        ensures most { result ≤ self.now.ids + 10 }
    {
        match kind {
            Kind::Point => 0,
            Kind::Linestring | Kind::Ring => number_len(own as u64),
            _ => number_len(self.members as u64) + self.ids,
        }
    }

    // The number of bytes of the body of a geometry above the rows of `self`, whose own row has
    // `own` points; `tail` totals its points, without those of collection members.
    #[inline(always)]
    fn body_len(&self, kind: Kind, own: u32, tail: &TailTotals) -> u64
        requires ids { self.now.ids ≤ sums_cap }
        requires bytes { self.now.bytes ≤ sums_cap }
        requires points { tail.now.bytes ≤ sums_cap }
        ensures value { result ≡ body_len kind own self.now tail.now }
        ensures most { result ≤ self.now.ids + self.now.bytes + tail.now.bytes + 30 }
    {
        if own == 0 && self.members == 0 {
            return 0;
        }
        self.lead_len(kind, own) + self.bytes + tail.from_origin()
    }

    // The bounds of all points of a geometry above the rows of `self`, those of collection members
    // included; `tail` totals the others. `None` if it has no point.
    #[inline(always)]
    fn all_bounds(&self, tail: &TailTotals) -> Option<Bounds>
        ensures { result ≡ all_bounds self.now tail.now }
    {
        merged(tail.bounds, self.bounds)
    }

    // The bounds of the box, in a style, of a geometry above the rows of `self`; `tail` totals its
    // points, without those of collection members. `None` if it has no box: in plain style always,
    // in full style if `full_box` gives none.
    #[inline(always)]
    fn box_for(&self, style: Style, kind: Kind, precision: i8, tail: &TailTotals) -> Option<Bounds>
        ensures { result ≡ box_for style kind precision self.now tail.now }
    {
        match style {
            Style::Full => self.full_box(kind, precision, tail),
            Style::Plain => None,
        }
    }

    // The bounds of the box, in full style, of a geometry above the rows of `self`; `tail` totals
    // its points, without those of collection members. `None` if it has no box: it is a point, has
    // no point, or has a geometry of another precision inside.
    #[inline(always)]
    fn full_box(&self, kind: Kind, precision: i8, tail: &TailTotals) -> Option<Bounds>
        ensures { result ≡ box_for Full kind precision self.now tail.now }
    {
        if is_point(kind) || !self.precisions.all_are(precision) {
            return None;
        }
        self.all_bounds(tail)
    }

    // The entry, in a style, of a geometry above the rows of `self`, whose own row has `own`
    // points; `tail` totals its points, without those of collection members.
    #[inline(always)]
    pub(crate) fn entry_for(
        &self,
        style: Style,
        kind: Kind,
        precision: i8,
        own: u32,
        tail: &TailTotals,
    ) -> Entry
        requires ids { self.now.ids ≤ sums_cap }
        requires bytes { self.now.bytes ≤ sums_cap }
        requires points { tail.now.bytes ≤ sums_cap }
        ensures value { result ≡ entry_for style kind precision own self.now tail.now }
        ensures most { result.size ≤ self.now.ids + self.now.bytes + tail.now.bytes + 70 }
    {
        let bounds = self.box_for(style, kind, precision, tail);
        let size = box_len(&bounds) + self.body_len(kind, own, tail);
        Entry {
            size,
            bounds,
            members: self.members,
            named: self.named,
        }
    }

    // The totals of the rows of `self` with a component of a geometry before them: its own row has
    // `own` points, and `below` totals the rows under it. `self` must have at most 2^30 members, and
    // `ids` and `bytes` of `self` and of `below` must each be at most 2^40.
    #[inline(always)]
    pub(crate) fn with_component(
        self,
        kind: Kind,
        own: u32,
        id: Option<i64>,
        below: &RowTotals,
    ) -> RowTotals
        requires members { self.members ≤ weights_cap }
        requires ids { self.ids ≤ sums_cap }
        requires bytes { self.bytes ≤ sums_cap }
        requires ids_below { below.now.ids ≤ sums_cap }
        requires bytes_below { below.now.bytes ≤ sums_cap }
        ensures value { result ≡ with_component kind own id below.now self }
        ensures most { result.ids + result.bytes ≤ (below.now.ids + below.now.bytes) + (self.ids + self.bytes) + 20 }
    {
        RowTotals {
            members: self.members + 1,
            ids: id_len(id) + self.ids,
            named: id.is_some() || self.named,
            bytes: below.lead_len(kind, own) + below.bytes + self.bytes,
            bounds: self.bounds,
            precisions: self.precisions,
        }
    }

    // The totals of the rows of `self` with a geometry before them: its box and body have `size`
    // bytes, which must be at most 2^50, `below` totals the rows under it, and `tail` its points,
    // without those of collection members. `self` must have at most 2^30 members, and its `ids` and
    // `bytes` must each be at most 2^40.
    #[inline(always)]
    pub(crate) fn with_geometry(
        self,
        style: Style,
        size: u64,
        precision: i8,
        id: Option<i64>,
        below: &RowTotals,
        tail: &TailTotals,
    ) -> RowTotals
        requires members { self.members ≤ weights_cap }
        requires ids { self.ids ≤ sums_cap }
        requires bytes { self.bytes ≤ sums_cap }
        requires room { size ≤ 2 ^ 50 }
        ensures value { result ≡ with_geometry style size precision id below.now tail.now self }
        ensures most { result.ids + result.bytes ≤ self.ids + self.bytes + size + 22 }
    {
        RowTotals {
            members: self.members + 1,
            ids: id_len(id) + self.ids,
            named: id.is_some() || self.named,
            bytes: blob_len(style, size) + self.bytes,
            bounds: merged(below.all_bounds(tail), self.bounds),
            precisions: Precisions::One(precision)
                .and(below.precisions)
                .and(self.precisions),
        }
    }
}
