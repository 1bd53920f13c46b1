//! The items before the members of a multi-geometry or a collection: their count and their ids.
//! Each is taken by its number, and by `width`, how many bytes that has. It must be the item that
//! comes next, and end at an offset of the stream of at most 2^63. `flat` and `spans` are as with
//! `feed`. After an `Err` the engine can take nothing more.
ghost use Rattle.std.specs.Prelude.{◌≡◌, ◌+◌, ◌<◌, ◌++◌, ◌∷◌, [], nat_lt, suc, length, false, None, IfOk, OnOk};
ghost use Rattle.twkb_num.specs.Spelling.{unzigzag_of};
ghost use Rattle.twkb_grammar.specs.Bits.{bit};
ghost use Rattle.twkb_grammar.specs.Roles as role;
ghost use Rattle.twkb_grammar.specs.Fault as fault;
ghost use Rattle.twkb_grammar.specs.Fault.{points_by};
ghost use Rattle.twkb_grammar.specs.Reading.{unless, objection};
ghost use Rattle.twkb_body.specs.Outline.{members_open, many_counted, ids_of, ids_read};
ghost use Rattle.twkb_body.specs.Growing.{applied, Admits};
ghost use Rattle.twkb_body.specs.Header.{head_of, many_of};
ghost use Rattle.twkb_engine.specs.Stops.{objection_of};
ghost use Rattle.twkb_engine.specs.declared.next_item.NextItem.TheVariants as next;

use crate::blob_reason::BlobReason;
use crate::engine::Engine;
use crate::next_item::NextItem;
use crate::span_notes::SpanNotes;
use crate::stop::Stop;
use std::alloc::AllocError;
use twkb_body::{MemberIds, own_row, push_row};
use twkb_flat::Flat;
use twkb_grammar::Metadata;
use twkb_num::unzigzag;
use twkb_tree::Kind;

// Appends the id that this number spells in zigzag form. Takes memory.
#[inline(always)]
fn push_id(ids: &mut MemberIds, number: u64) -> Result<(), AllocError>
    ensures pushed { OnOk result
        (ids_read ids.new ≡ ids_read ids.old ++ unzigzag_of number ∷ []) }
    ensures has { ids.new.has_ids ≡ ids.old.has_ids }
{
    ids.push(unzigzag(number))?;
    Ok(())
}

impl Engine {
    ghost use Rattle.twkb_engine.specs.State.{IsPlaced, outline_in, sums_of};
    ghost use Rattle.twkb_engine.specs.Collections.{frames_of};
    ghost use Rattle.twkb_engine.specs.Caps.{depth_cap};
    ghost use Rattle.twkb_engine.specs.Taking.{Takes, TakesItem, Keeps, Stays, own_row, counted_row, count_role};
    ghost use Rattle.twkb_engine.specs.Taking.{open_in};
    ghost use Rattle.twkb_engine.specs.Standing.{ComesNext};

    // Why the limits leave no room for `nodes` more rows, or else for `points` more points; `None`
    // if they leave room for both.
    #[inline(always)]
    pub(crate) fn too_many(&self, nodes: u64, points: u64) -> Option<BlobReason>
        ensures { objection_of result ≡ unless (nat_lt self.now.limits.nodes
            (self.now.nodes + nodes)) fault.TooManyNodes (unless
            (nat_lt self.now.limits.points (self.now.points + points)) fault.TooManyPoints None) }
    {
        if nodes > u64::from(self.limits.nodes()) - self.nodes {
            return Some(BlobReason::TooManyNodes);
        }
        if points > u64::from(self.limits.points()) - self.points {
            return Some(BlobReason::TooManyPoints);
        }
        None
    }

    // How many points `count` members of the geometry announce by their count: one each in a
    // multipoint, else none.
    #[inline(always)]
    fn member_points(&self, count: u64) -> u64
        ensures { result ≡ points_by (count_role self.now) count }
    {
        if self.head.kind == Kind::MultiPoint {
            return count;
        }
        0
    }

    // Why the limits refuse `count` members, which announce `points` points, as `member_points`
    // must give them: a collection nests too deep, or else there are too many rows, or else too
    // many points. `None` if they do not. The count of members must come next.
    #[inline(always)]
    fn too_many_members(&self, count: u64, points: u64) -> Option<BlobReason>
        requires next { self.now.next ≡ next.MemberCount }
        requires points { points ≡ points_by (count_role self.now) count }
        ensures { objection_of result ≡ objection self.now.limits (sums_of self.now) (count_role self.now) count }
    {
        let nest = self.limits.nest() as usize;
        if self.head.kind == Kind::Collection && count > 0 && self.collections.len() >= nest {
            return Some(BlobReason::TooDeep);
        }
        self.too_many(count, points)
    }

    // Takes the count of members, adds their rows and points to the sums, and goes to the first id
    // or member, or past a geometry without members as `end_empty` does. Returns whether the blob
    // ends with it. Refused if they are too deep or too many, or if the size of a geometry that
    // ends here is not exact. A row and an open collection take memory.
    #[inline(always)]
    pub(crate) fn member_count<S: SpanNotes>(
        &mut self,
        flat: &mut Flat,
        spans: &mut S,
        count: u64,
        width: u64,
    ) -> Result<bool, Stop>
        requires { ComesNext next.MemberCount flat.old self.old count width }
        ensures { TakesItem S.holds (count_role self.old) count width self.old flat.old spans.old result self.new
            flat.new spans.new }
    {
        let points = self.member_points(count);
        if let Some(reason) = self.too_many_members(count, points) {
            return Err(Stop::Refused(reason));
        }
        self.bytes += width;
        self.nodes += count;
        self.points += points;
        if count == 0 {
            return self.end_empty(flat, spans);
        }
        self.begin_ids_or_members(flat, count)?;
        Ok(false)
    }

    // Forgets all ids, and goes to the members of a geometry that has `count` of them, which must
    // be at least one: to the first id if they have ids, else to the first member as
    // `begin_members` does. The count of members must come next, and fewer than 64 collections must
    // be open. A row and an open collection take memory.
    #[inline(always)]
    fn begin_ids_or_members(&mut self, flat: &mut Flat, count: u64) -> Result<(), AllocError>
        requires next { self.old.next ≡ next.MemberCount }
        requires some { 0 < count }
        requires row { bit self.old.head.metadata 2 ≡ false → Admits (own_row self.old) flat.old }
        requires room { length self.old.collections < depth_cap }
        ensures step { OnOk result (outline_in self.new ≡ many_counted (many_of self.old.head.kind)
            (head_of self.old.head) (frames_of self.old.collections) count) }
        ensures rows { OnOk result (flat.new ≡ applied (counted_row self.old) flat.old) }
        ensures sums { sums_of self.new ≡ sums_of self.old }
        ensures placed { IsPlaced self.old.next self.old → OnOk result (IsPlaced self.new.next self.new) }
        ensures stays { Stays self.old self.new }
    {
        let has_ids = Metadata::from_byte(self.head.metadata).has_ids();
        self.ids.restart(has_ids);
        self.members_left = count - 1;
        self.next = NextItem::Id;
        if has_ids {
            return Ok(());
        }
        self.begin_members(flat)?;
        Ok(())
    }

    // Takes an id, and after the last one goes to the first member as `begin_members` does. Returns
    // false, as no blob ends with an id. Never refused; an id, a row and an open collection take
    // memory.
    #[inline(always)]
    pub(crate) fn id(&mut self, flat: &mut Flat, number: u64, width: u64) -> Result<bool, Stop>
        requires { ComesNext next.Id flat.old self.old number width }
        ensures taken { Takes role.Id number width self.old flat.old result self.new flat.new }
        ensures begun { OnOk result (open_in self.new ≡ open_in self.old) }
        ensures placed { IsPlaced self.old.next self.old → OnOk result (IsPlaced self.new.next self.new) }
        ensures kept { Keeps self.old self.new }
    {
        self.bytes += width;
        push_id(&mut self.ids, number)?;
        self.next = NextItem::Id;
        if self.ids.count() <= self.members_left {
            return Ok(false);
        }
        self.ids.begin();
        self.begin_members(flat)?;
        Ok(false)
    }

    // Pushes the row of a geometry with members, which the form must admit, opens the geometry with
    // its ids if it is a collection, and goes to the first member. `next` must be `Id`, also if
    // members have no ids, and fewer than 64 collections must be open. A row and an open collection
    // take memory.
    fn begin_members(&mut self, flat: &mut Flat) -> Result<(), AllocError>
        requires next { self.old.next ≡ next.Id }
        requires row { Admits (own_row self.old) flat.old }
        requires room { length self.old.collections < depth_cap }
        ensures step { OnOk result (outline_in self.new ≡ members_open (many_of self.old.head.kind)
            (head_of self.old.head) (frames_of self.old.collections) (ids_of self.old.ids)
            (suc self.old.members_left)) }
        ensures rows { OnOk result (flat.new ≡ applied (own_row self.old) flat.old) }
        ensures sums { sums_of self.new ≡ sums_of self.old }
        ensures placed { IsPlaced next.MemberCount self.old → OnOk result (IsPlaced self.new.next self.new) }
        ensures stays { Stays self.old self.new }
    {
        push_row(flat, own_row(&self.head))?;
        if self.head.kind == Kind::Collection {
            self.collections
                .push(&self.head, &mut self.ids, self.members_left)?;
            self.members_left = 0;
            self.next = NextItem::TypeByte;
            return Ok(());
        }
        self.next = NextItem::first_of(self.head.kind);
        Ok(())
    }
}
