//! The items of a body: coordinates, and counts of points and of rings. Each is taken by its
//! number, and by `width`, how many bytes that has. It must be the item that comes next, and end at
//! an offset of the stream of at most 2^63. `flat` and `spans` are as with `feed`. After an `Err`
//! the engine can take nothing more.
ghost use Rattle.std.specs.Prelude.{◌≡◌, ◌≢◌, ◌+◌, ◌≤◌, [], true, false, List, Ok, Some, IfOk, OnOk, IfSome};
ghost use Rattle.std.specs.Prelude.{IfNone};
ghost use Rattle.twkb_tree.specs.Rows.{Row as TableRow};
ghost use Rattle.twkb_grammar.specs.Roles as role;
ghost use Rattle.twkb_grammar.specs.Fault.{CoordinateRange, moved};
ghost use Rattle.twkb_grammar.specs.Reading.{objection};
ghost use Rattle.twkb_grammar.specs.Machine.{listed};
ghost use Rattle.twkb_flat.specs.Rows.{row_with};
ghost use Rattle.twkb_body.specs.Growing.{NewRow, Nothing, Admits};
ghost use Rattle.twkb_engine.specs.declared.next_item.NextItem.TheVariants as next;

use crate::blob_reason::BlobReason;
use crate::end::Inexact;
use crate::engine::Engine;
use crate::next_item::NextItem;
use crate::span_notes::SpanNotes;
use crate::stop::Stop;
use twkb_body::{line_row, push_row, put_point, ring_list_row};
use twkb_flat::{Flat, Row};
use twkb_num::unzigzag;
use twkb_points::Pt;

impl Engine {
    ghost use Rattle.twkb_engine.specs.State.{IsPlaced, IsHere, outline_in, sums_of};
    ghost use Rattle.twkb_engine.specs.Caps.{place_cap};
    ghost use Rattle.twkb_engine.specs.Fits.{are_shut, IsInside, IsBodyItem};
    ghost use Rattle.twkb_engine.specs.Taking.{Takes, TakesItem, GoesOn, IsFree, Keeps, Stays, past_end, past_last};
    ghost use Rattle.twkb_engine.specs.Taking.{point_row, judged_as, open_in};
    ghost use Rattle.twkb_engine.specs.Standing.{ComesNext};

    // Takes an x: moves the position by the step that the number spells in zigzag form; the y comes
    // next. Returns false, as no blob ends with an x. Refused if x is then outside -2^62 to
    // 2^62 - 1. Takes no memory.
    #[inline(always)]
    #[tactic(auto, using(twkb_body::proofs::InFront::ranges))]
    pub(crate) fn x(&mut self, number: u64, width: u64) -> Result<bool, Stop>
        requires next { self.old.next ≡ next.X }
        requires room { self.old.start + (self.old.bytes + width) ≤ place_cap }
        ensures taken { (rs : List TableRow) → Takes role.X number width self.old rs result self.new rs }
        ensures begun { IfOk result (λ ends. (ends ≡ false) × (open_in self.new ≡ open_in self.old)) }
        ensures placed { IsPlaced self.old.next self.old → OnOk result (IsPlaced self.new.next self.new) }
        ensures kept { Keeps self.old self.new }
    {
        let Some(position) = self.position.moved_x(unzigzag(number)) else {
            return Err(Stop::Refused(BlobReason::CoordinateRange));
        };
        self.bytes += width;
        self.position = position;
        self.next = NextItem::Y;
        Ok(false)
    }

    // The position after the step along y that this number spells in zigzag form; `None` if y is
    // then outside -2^62 to 2^62 - 1.
    #[inline(always)]
    #[tactic(auto, using(twkb_body::proofs::InFront::ranges))]
    fn moved_y(&self, number: u64) -> Option<Pt>
        ensures moved { IfSome result (λ to. to ≡ moved self.now.position role.Y number) }
        ensures free { IfSome result (λ to. IsFree role.Y number self.now) }
        ensures refused { IfNone result
            (objection self.now.limits (sums_of self.now) role.Y number ≡ Some CoordinateRange) }
    {
        let Some(position) = self.position.moved_y(unzigzag(number)) else {
            return None;
        };
        Some(position)
    }

    // Takes a y, and adds the point that it completes to the rows, at once if its list goes on,
    // else as `put_last_point` does. Returns whether the blob ends with it. Refused if y is then
    // outside -2^62 to 2^62 - 1, or if the size of a geometry that ends here is not exact. The
    // point takes memory.
    #[inline(always)]
    pub(crate) fn y<S: SpanNotes>(
        &mut self,
        flat: &mut Flat,
        spans: &mut S,
        number: u64,
        width: u64,
    ) -> Result<bool, Stop>
        requires { ComesNext next.Y flat.old self.old number width }
        ensures { TakesItem S.holds role.Y number width self.old flat.old spans.old result self.new flat.new
            spans.new }
    {
        let Some(position) = self.moved_y(number) else {
            return Err(Stop::Refused(BlobReason::CoordinateRange));
        };
        self.bytes += width;
        self.position = position;
        if self.points_left > 1 {
            flat.add_point(position)?;
            self.points_left -= 1;
            self.next = NextItem::X;
            return Ok(false);
        }
        self.points_left = 0;
        self.put_last_point(flat, spans, position)
    }

    // Goes past a point at `position`, the last of its list or a geometry or member itself, as
    // `end_list_or_point` does, and adds it to the form, which must admit it. No point of the list
    // may be left, and `next` must be an item of a body. Returns whether the blob ends with the
    // point. Refused if the size of a geometry that ends here is not exact. The point takes memory.
    #[inline(never)]
    pub(crate) fn put_last_point<S: SpanNotes>(
        &mut self,
        flat: &mut Flat,
        spans: &mut S,
        position: Pt,
    ) -> Result<bool, Stop>
        requires last { self.old.points_left ≡ 0 }
        requires body { IsBodyItem self.old.next }
        requires may { Admits (point_row position self.old) flat.old }
        ensures { GoesOn S.holds (past_last self.old) (point_row position self.old) self.old flat.old spans.old
            result self.new flat.new spans.new }
    {
        let member = self.ids.first();
        let ends = self.end_list_or_point(spans)?;
        put_point(flat, &self.head, member, position)?;
        Ok(ends)
    }

    // Takes the count of a line's or ring's points, adds it to the sum of points, pushes the list's
    // row, and goes to the first point, or past an empty list. Returns whether the blob ends with
    // it. Refused if the points are too many, or if the size of a geometry that ends here is not
    // exact. A row takes memory.
    #[inline(always)]
    pub(crate) fn point_count<S: SpanNotes>(
        &mut self,
        flat: &mut Flat,
        spans: &mut S,
        count: u64,
        width: u64,
    ) -> Result<bool, Stop>
        requires { ComesNext next.PointCount flat.old self.old count width }
        ensures { TakesItem S.holds (role.Count (listed 0)) count width self.old flat.old spans.old result self.new
            flat.new spans.new }
    {
        if let Some(reason) = self.too_many(0, count) {
            return Err(Stop::Refused(reason));
        }
        self.bytes += width;
        self.points += count;
        let row = line_row(&self.head, self.ids.first());
        if count == 0 {
            return self.put_empty_list(flat, spans, row);
        }
        push_row(flat, row)?;
        self.points_left = count;
        self.next = NextItem::X;
        Ok(false)
    }

    // Takes the count of a polygon's rings, adds it to the sum of rows, pushes the polygon's row,
    // and goes to the first ring, or past an empty list. Returns whether the blob ends with it.
    // Refused if the rings are too many, or if the size of a geometry that ends here is not exact.
    // A row takes memory.
    #[inline(always)]
    pub(crate) fn ring_count<S: SpanNotes>(
        &mut self,
        flat: &mut Flat,
        spans: &mut S,
        count: u64,
        width: u64,
    ) -> Result<bool, Stop>
        requires { ComesNext next.RingCount flat.old self.old count width }
        ensures { TakesItem S.holds (role.Count (listed 1)) count width self.old flat.old spans.old result self.new
            flat.new spans.new }
    {
        if let Some(reason) = self.too_many(count, 0) {
            return Err(Stop::Refused(reason));
        }
        self.bytes += width;
        self.nodes += count;
        let row = ring_list_row(&self.head, self.ids.first());
        if count == 0 {
            return self.put_empty_list(flat, spans, row);
        }
        push_row(flat, row)?;
        self.rings_left = count - 1;
        self.next = NextItem::PointCount;
        Ok(false)
    }

    // Goes past an empty list of points or rings, as `end_list_or_point` does, and then pushes its
    // row, which the form must admit. No point may be left, and `next` must be an item of a body.
    // Returns whether the blob ends with the list. Refused if the size of a geometry that ends here
    // is not exact. The row takes memory.
    fn put_empty_list<S: SpanNotes>(
        &mut self,
        flat: &mut Flat,
        spans: &mut S,
        row: Row,
    ) -> Result<bool, Stop>
        requires last { self.old.points_left ≡ 0 }
        requires body { IsBodyItem self.old.next }
        requires may { Admits (NewRow (row_with row [])) flat.old }
        ensures { GoesOn S.holds (past_last self.old) (NewRow (row_with row [])) self.old flat.old spans.old
            result self.new flat.new spans.new }
    {
        let ends = self.end_list_or_point(spans)?;
        push_row(flat, row)?;
        Ok(ends)
    }

    // Goes past a list, or past a point that is a geometry or a member itself, of which no point
    // may be left: to the next ring or member, or past the end of the geometry as `end_geometry`
    // does. `next` must be an item of a body. Returns whether the blob ends here; an `Err` is a
    // size that is not exact. Takes no memory.
    #[inline(always)]
    fn end_list_or_point<S: SpanNotes>(&mut self, spans: &mut S) -> Result<bool, Inexact>
        requires last { self.old.points_left ≡ 0 }
        requires body { IsBodyItem self.old.next }
        ensures ended { (rs : List TableRow) → GoesOn S.holds (past_last self.old) Nothing self.old rs spans.old
            (judged_as result) self.new rs spans.new }
        ensures head { self.new.head ≡ self.old.head }
    {
        if self.ends_with_list() {
            return self.end_geometry(spans);
        }
        self.end_list();
        Ok(false)
    }

    // Goes past a list of points, which must all be taken, as `end_list_or_point` does and under
    // its conditions. Not inlined, so that its caller keeps its registers.
    #[inline(never)]
    pub(crate) fn end_points<S: SpanNotes>(&mut self, spans: &mut S) -> Result<bool, Inexact>
        requires last { self.old.points_left ≡ 0 }
        requires body { IsBodyItem self.old.next }
        ensures { (rs : List TableRow) → GoesOn S.holds (past_last self.old) Nothing self.old rs spans.old
            (judged_as result) self.new rs spans.new }
    {
        self.end_list_or_point(spans)
    }

    // Whether the body ends with the open list or point, since no ring and no member is left after
    // it.
    #[inline(always)]
    fn ends_with_list(&self) -> bool
        ensures ends { result ≡ true → past_last self.now ≡ past_end self.now }
        ensures shut { result ≡ true → are_shut 0 self.now.rings_left self.now.members_left ≡ true }
        ensures more { result ≡ false → self.now.rings_left + self.now.members_left ≢ 0 }
    {
        self.rings_left == 0 && self.members_left == 0
    }

    // Goes past a list or point after which a ring or a member must be left: to the next ring, or
    // else to the next member and its id. No point of the list may be left, and `next` must be an
    // item of a body.
    #[inline(always)]
    fn end_list(&mut self)
        requires last { self.old.points_left ≡ 0 }
        requires body { IsBodyItem self.old.next }
        requires left { self.old.rings_left + self.old.members_left ≢ 0 }
        ensures step { past_last self.old ≡ Ok (outline_in self.new) }
        ensures sums { sums_of self.new ≡ sums_of self.old }
        ensures head { self.new.head ≡ self.old.head }
        ensures same { self.new.collections ≡ self.old.collections }
        ensures inside { IsInside self.new.next }
        ensures placed { IsHere self.old → IsPlaced self.new.next self.new }
        ensures stays { Stays self.old self.new }
    {
        if self.rings_left > 0 {
            self.rings_left -= 1;
            self.next = NextItem::PointCount;
            return;
        }
        self.members_left = self.members_left.saturating_sub(1);
        self.ids.advance();
        self.next = NextItem::first_of(self.head.kind);
    }
}
