//! A blob that is read item by item into a flat form.
ghost use Rattle.std.specs.Prelude.{◌≡◌, ◌+◌, ◌≤◌, ◌<◌, [], ℕ, List, true, false, IfOk, OnOk, length};
ghost use Rattle.twkb_num.specs.Varint.{IsOpenVarint};
ghost use Rattle.twkb_tree.specs.Rows.{Row};
ghost use Rattle.twkb_tree.specs.Limits.{IsAllowance};
ghost use Rattle.twkb_grammar.specs.Roles.{Role};
ghost use Rattle.twkb_engine.specs.Fits.{item_fits as fits, lists_fit as lists};
ghost use Rattle.twkb_engine.specs.Caps.{depth_cap, place_cap};

use crate::next_item::NextItem;
use crate::open_collections::OpenCollections;
use crate::span_notes::SpanNotes;
use crate::stop::Stop;
use std::alloc::Global;
use twkb_body::{Head, MemberIds};
use twkb_flat::Flat;
use twkb_num::{Leb128, Partial};
use twkb_points::Pt;
use twkb_tree::Limits;

/// A blob that is read byte by byte into a flat form, which is borrowed by each call: the item that
/// comes next, the geometries it is in, the sums of the items so far, and the bytes of a number
/// that is not complete.
#[derive(Drop)]
pub struct Engine {
    pub(crate) limits: Limits,
    // Where the blob begins, in bytes from the stream's start.
    pub(crate) start: u64,
    // The bytes of its items so far.
    pub(crate) bytes: u64,
    pub(crate) position: Pt,
    // The rows and the points that its items announced.
    pub(crate) nodes: u64,
    pub(crate) points: u64,
    pub(crate) collections: OpenCollections,
    // The geometry that is read: its header, its members' ids, the number of members and of rings
    // after the open one, and the number of points of the open list to come, 0 if none is open.
    pub(crate) head: Head,
    pub(crate) ids: MemberIds,
    pub(crate) members_left: u64,
    pub(crate) rings_left: u64,
    pub(crate) points_left: u64,
    pub(crate) next: NextItem,
    pub(crate) held: Partial<Leb128>,
    ghost nodes_kept: { nodes ≤ limits.nodes },
    ghost points_kept: { points ≤ limits.points },
    ghost allowed: { IsAllowance limits },
    ghost few_open: { length collections ≤ depth_cap },
    ghost item_fits: { fits next head.kind ≡ true },
    ghost lists_fit: { lists next head.kind points_left rings_left members_left ≡ true },
    ghost within: { start + bytes ≤ place_cap },
}

impl Engine {
    ghost use Rattle.twkb_engine.specs.State.{IsNext, allowance_of};
    ghost use Rattle.twkb_engine.specs.Fits.{IsByte, are_shut};
    ghost use Rattle.twkb_engine.specs.Taking.{TakesItem, BeginsAt, Keeps, open_in};
    ghost use Rattle.twkb_engine.specs.Standing.{StandsAt, IsAlive, IsEnd, count_of, held_in, offset_in, place_in};

    /// Makes an engine that has read nothing, for the blobs of a stream from this offset on, which
    /// must be at most 2^63. The limits are those of each blob's geometry. Takes no memory.
    pub fn new(alloc: Global, limits: Limits, start: u64) -> Engine
        requires room { start ≤ place_cap }
        ensures stands { StandsAt [] [] result }
        ensures limits { allowance_of result ≡ limits }
        ensures begins { BeginsAt start result }
        ensures alone { held_in result ≡ [] }
    {
        Engine {
            limits,
            start,
            bytes: 0,
            position: Pt::origin(),
            nodes: 1,
            points: 0,
            collections: OpenCollections::new(alloc),
            head: Head::none(),
            ids: MemberIds::new(alloc),
            members_left: 0,
            rings_left: 0,
            points_left: 0,
            next: NextItem::TypeByte,
            held: Partial::new(),
        }
    }

    // Goes to the start of the next blob, which is where the one that was read ends; nothing of
    // that one may be left. Forgets sums and position, and the open collections, whose memory it
    // keeps. Takes no memory.
    pub(crate) fn restart(&mut self)
        requires shut { are_shut self.old.points_left self.old.rings_left self.old.members_left ≡ true }
        ensures begins { BeginsAt (self.old.start + self.old.bytes) self.new }
        ensures kept { Keeps self.old self.new }
        ensures head { self.new.head ≡ self.old.head }
    {
        self.start += self.bytes;
        self.bytes = 0;
        self.position = Pt::origin();
        self.nodes = 1;
        self.points = 0;
        self.collections.clear();
        self.next = NextItem::TypeByte;
    }

    // Takes the next item by its number of `width` bytes (one byte below 256 for a type, metadata
    // or extended byte), which must end at an offset of at most 2^63. Returns whether the blob ends
    // with it. `flat` and `spans` are as with `feed`. An `Err` is the first reason against it, an
    // inexact size of a geometry that ends here, or refused memory. A row, a point, an id, an open
    // collection and a span take memory.
    #[inline(never)]
    pub(crate) fn take<S: SpanNotes>(
        &mut self,
        flat: &mut Flat,
        spans: &mut S,
        number: u64,
        width: u64,
    ) -> Result<bool, Stop>
        requires byte { IsByte self.old.next → (number < 256) × (width ≡ 1) }
        requires room { self.old.start + (self.old.bytes + width) ≤ place_cap }
        requires alive { IsAlive flat.old self.old }
        ensures { (r : Role) → IsNext r self.old → TakesItem S.holds r number width self.old
            flat.old spans.old result self.new flat.new spans.new }
    {
        match self.next {
            NextItem::TypeByte => self.type_byte(spans, number),
            NextItem::MetadataByte => self.metadata_byte(flat, spans, number),
            NextItem::ExtendedByte => self.extended_byte(flat, spans, number),
            NextItem::Size => self.size(flat, spans, number, width),
            NextItem::BoxNumber { left } => self.box_number(flat, spans, left, width),
            NextItem::MemberCount => self.member_count(flat, spans, number, width),
            NextItem::Id => self.id(flat, number, width),
            NextItem::X => self.x(number, width),
            NextItem::Y => self.y(flat, spans, number, width),
            NextItem::PointCount => self.point_count(flat, spans, number, width),
            NextItem::RingCount => self.ring_count(flat, spans, number, width),
        }
    }

    /// Whether no byte was taken since the engine was made or the last blob ended. Takes no memory.
    #[inline(always)]
    pub fn is_between(&self) -> bool
        ensures ended { (bs : List ℕ) (rs : List Row) → StandsAt bs rs self.now
            → IsEnd (allowance_of self.now) bs (offset_in self.now) result }
        ensures alone { result ≡ true → held_in self.now ≡ [] }
        ensures none { result ≡ true → self.now.bytes ≡ 0 }
        ensures some { result ≡ false → 0 < count_of self.now }
    {
        self.held.len() == 0 && self.bytes == 0
    }

    /// The number of bytes, 0 to 9, that are held of a varint that is not complete. Takes no
    /// memory.
    #[inline(always)]
    pub fn held(&self) -> usize
        ensures held { result ≡ length (held_in self.now) }
        ensures few { result ≤ 9 }
        ensures begun { IsOpenVarint (held_in self.now) }
    {
        self.held.len()
    }

    /// Where the blob that is read begins, or the next one if none is begun, in bytes from the
    /// stream's start. Takes no memory.
    #[inline(always)]
    pub fn start(&self) -> u64
        ensures { result ≡ self.now.start }
    {
        self.start
    }

    /// The number of bytes of the blob before the next item; after a refusal, before the item that
    /// is refused, or up to the end of the geometry with the inexact size. Takes no memory.
    #[inline(always)]
    pub fn bytes(&self) -> u64
        ensures { result ≡ offset_in self.now }
    {
        self.bytes
    }

    /// Where the next item begins, in bytes from the stream's start; after a refusal, where the
    /// item that is refused begins, or where the geometry with the inexact size ends. Takes no
    /// memory.
    #[inline(always)]
    pub fn offset(&self) -> u64
        ensures { result ≡ place_in self.now }
    {
        self.start + self.bytes
    }

    /// The limits of each blob's geometry. Takes no memory.
    pub fn limits(&self) -> Limits
        ensures { result ≡ allowance_of self.now }
    {
        self.limits
    }

    /// The number of geometries whose type byte was taken and whose end was not. Takes no memory.
    pub fn open_geometries(&self) -> usize
        ensures open { result ≡ open_in self.now }
        ensures few { (bs : List ℕ) (rs : List Row) → StandsAt bs rs self.now
            → result ≤ (allowance_of self.now).nest + 1 }
    {
        let open = self.collections.len();
        match self.next {
            NextItem::TypeByte => open,
            _ => open + 1,
        }
    }
}
