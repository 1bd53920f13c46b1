//! The collections that are open.
ghost use Rattle.std.specs.Prelude.{◌≡◌, ◌≤◌, ◌+◌, ◌-◌, ◌++◌, ◌∷◌, [], ℕ, List, length, take, true, Ok, OnOk, OnErr};
ghost use Rattle.twkb_grammar.specs.Reading.{is_exact as exact};
ghost use Rattle.twkb_body.specs.Outline.{OnHeader, outline_past_end};
ghost use Rattle.twkb_body.specs.Growing.{id_in};
ghost use Rattle.twkb_engine.specs.Collections.{frames_of, IfBlob, IfNext, IfCollection};
ghost use Rattle.twkb_engine.specs.declared.open_collections.OpenCollection.{OpenCollection};

use smallvec::SmallVec;
use std::alloc::{AllocError, Global};
use std::default::MadeWith;
use std::marker::Model;
use std::mem::swap;
use twkb_body::{Head, MemberIds};

// The least room in itself that a `SmallVec` has. It is never used: the first growth adds `MORE`
// places, so they are on the heap.
const INLINE: usize = 1;

// `make_place` makes room for this many places before it adds one: the first growth makes room for
// four, and each later one doubles it.
const MORE: usize = 3;

// A collection that is begun and not finished: its header, the ids from the open member on, and the
// number of members after that one.
#[derive(Drop)]
pub(crate) struct OpenCollection {
    head: Head,
    ids: MemberIds,
    members_left: u64,
}

impl MadeWith<Global> for OpenCollection {
    // Makes an unused place, which `push` fills later: the head of `Head::none`, and no ids. Takes
    // no memory.
    fn made_with(alloc: Global) -> OpenCollection {
        OpenCollection {
            head: Head::none(),
            ids: MemberIds::new(alloc),
            members_left: 0,
        }
    }
}

// What the end of a member leads to.
pub(crate) enum MemberEnd {
    // No collection is open: the blob ends.
    Blob,
    // The next member begins.
    NextMember,
    // The collection ends with its last member.
    Collection(Head),
}

// The open collections, the innermost last. A place is kept after its collection ends, for the next
// one as deep: nothing is dropped, and no blank is written.
#[derive(Drop)]
pub(crate) struct OpenCollections {
    places: SmallVec<OpenCollection, INLINE>,
    count: usize,
}

impl Model for OpenCollections {
    ghost Value = { List OpenCollection };

    ghost view = { λ c. take c.count c.places.items };

    ghost invariant = { λ c. c.count ≤ length c.places.items };
}

// Adds an unused place after the others. Takes memory; an `Err` changes nothing. Out of line: it
// runs once for each depth. It makes the place itself, so that no caller keeps a collection in
// memory for it.
#[cold]
#[inline(never)]
fn make_place(places: &mut SmallVec<OpenCollection, INLINE>) -> Result<(), AllocError>
    ensures place { OnOk result ((blank : OpenCollection) × (places.new.items ≡ places.old.items ++ blank ∷ [])) }
    ensures same { OnErr result (places.new.items ≡ places.old.items) }
{
    let blank = OpenCollection::made_with(*places.allocator());
    if places.reserve(MORE).is_err() {
        return Err(AllocError);
    }
    places.push_reserved(blank);
    Ok(())
}

impl OpenCollections {
    // Makes a list without open collections. Takes no memory.
    pub(crate) fn new(alloc: Global) -> OpenCollections
        ensures { result ≡ [] }
    {
        OpenCollections {
            places: SmallVec::new(alloc),
            count: 0,
        }
    }

    // The number of open collections.
    #[inline(always)]
    pub(crate) fn len(&self) -> usize
        ensures { result ≡ length self.now }
    {
        self.count
    }

    // The id of the open member of the innermost collection; `None` if it has none, or if no
    // collection is open.
    #[inline(always)]
    pub(crate) fn id(&self) -> Option<i64>
        ensures { result ≡ id_in (frames_of self.now) }
    {
        if self.count == 0 {
            return None;
        }
        self.places.as_slice()[self.count - 1].ids.first()
    }

    // Opens a collection inside those that are open, with this header, the ids of its members, and
    // the number of members after the first. `ids` then has old ids of no meaning, for their
    // memory. Takes memory only if more are open than ever before; an `Err` changes nothing.
    #[inline(always)]
    pub(crate) fn push(
        &mut self,
        head: &Head,
        ids: &mut MemberIds,
        members_left: u64,
    ) -> Result<(), AllocError>
        ensures pushed { OnOk result (self.new ≡ self.old
            ++ record { head = head.now; ids = ids.old; members_left = members_left } ∷ []) }
        ensures same { OnErr result (self.new ≡ self.old) }
    {
        if self.count >= self.places.len() {
            let Ok(()) = make_place(&mut self.places) else {
                return Err(AllocError);
            };
        }
        let place = &mut self.places.as_mut_slice()[self.count];
        place.head = *head;
        place.members_left = members_left;
        swap(&mut place.ids, ids);
        self.count += 1;
        Ok(())
    }

    // Leaves no collection open, and keeps the memory of all for later ones.
    #[inline(always)]
    pub(crate) fn clear(&mut self)
        ensures { self.new ≡ [] }
    {
        self.count = 0;
    }

    // Ends the open member of the innermost collection, and returns what that leads to: the next
    // member, with the next id; after the last one the end of the collection, with its head, and
    // its ids swapped with `ids`, for their memory; the end of the blob, with no change, if no
    // collection is open.
    #[inline(always)]
    pub(crate) fn end_member(&mut self, ids: &mut MemberIds) -> MemberEnd
        ensures blob { IfBlob result (self.old ≡ []) }
        ensures goes_on { IfNext result ((bytes : ℕ) → outline_past_end true bytes
            (frames_of self.old) ≡ Ok (frames_of self.new, OnHeader)) }
        ensures goes_up { IfCollection result (λ h. (bytes : ℕ)
            → outline_past_end (exact h.size (bytes - h.from)) bytes (frames_of self.new)
            ≡ outline_past_end true bytes (frames_of self.old)) }
        ensures fewer { IfCollection result (λ h. length self.new + 1 ≡ length self.old) }
        ensures same { IfNext result (length self.new ≡ length self.old) }
        ensures as_many { length self.new ≤ length self.old }
    {
        if self.count == 0 {
            return MemberEnd::Blob;
        }
        let last = self.count - 1;
        let innermost = &mut self.places.as_mut_slice()[last];
        if innermost.members_left > 0 {
            innermost.members_left -= 1;
            innermost.ids.advance();
            return MemberEnd::NextMember;
        }
        let head = innermost.head;
        swap(&mut innermost.ids, ids);
        self.count = last;
        MemberEnd::Collection(head)
    }
}
