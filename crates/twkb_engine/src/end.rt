//! The end of a geometry. After an `Err` the engine can take nothing more.
ghost use Rattle.std.specs.Prelude.{◌≡◌, ◌-◌, true, IfOk, OnOk, List};
ghost use Rattle.twkb_grammar.specs.Reading.{is_exact as exact};
ghost use Rattle.twkb_body.specs.Growing.{Nothing, Admits};
ghost use Rattle.twkb_body.specs.HeaderParts.{Passes};
ghost use Rattle.twkb_tree.specs.Rows.{Row};

use crate::blob_reason::BlobReason;
use crate::engine::Engine;
use crate::next_item::NextItem;
use crate::open_collections::MemberEnd;
use crate::span_notes::SpanNotes;
use crate::stop::Stop;
use twkb_body::{Head, own_row, push_row};
use twkb_flat::Flat;

// Whether a geometry with this header, which ends after `bytes` bytes of its blob, has the size
// that it declares; true if it declares none.
#[inline(always)]
fn is_exact(head: &Head, bytes: u64) -> bool
    ensures { result ≡ exact head.now.size (bytes - head.now.from) }
{
    match head.size {
        None => true,
        Some(size) => size == bytes.saturating_sub(head.from),
    }
}

// A size that is not exact.
#[derive(Clone, Copy, Debug, PartialEq, Eq)]
pub(crate) struct Inexact;

impl From<Inexact> for Stop {
    ghost use Rattle.twkb_flat.specs.declared.stop.Stop.TheVariants.{Refused};
    ghost use Rattle.twkb_engine.specs.declared.blob_reason.BlobReason.TheVariants.{SizeMismatch};

    ghost from_gives = { λ e stop. stop ≡ Refused SizeMismatch };

    // The stop at a size that is not exact: a refusal, as `SizeMismatch`.
    fn from(_: Inexact) -> Stop {
        Stop::Refused(BlobReason::SizeMismatch)
    }
}

impl Engine {
    ghost use Rattle.twkb_engine.specs.Fits.{are_shut, IsInside, IsHeaderItem};
    ghost use Rattle.twkb_engine.specs.Taking.{GoesOn, past_end, own_row, judged_as};

    // Ends the geometry that is read, which must be begun and of which nothing may be left, and
    // each collection whose last member ends with it, the innermost first, and notes the ends of
    // their spans. Returns true if the blob ends, and goes to the next one; false if a member comes
    // next. An `Err` is the first size that is not exact. Takes no memory.
    pub(crate) fn end_geometry<S: SpanNotes>(&mut self, spans: &mut S) -> Result<bool, Inexact>
        requires shut { are_shut self.old.points_left self.old.rings_left self.old.members_left ≡ true }
        requires inside { IsInside self.old.next }
        ensures ended { (rs : List Row) → GoesOn S.holds (past_end self.old) Nothing self.old rs spans.old
            (judged_as result) self.new rs spans.new }
        ensures judged { OnOk result (Passes (past_end self.old)) }
        ensures head { self.new.head ≡ self.old.head }
    {
        let mut head = self.head;
        loop {
            if !is_exact(&head, self.bytes) {
                return Err(Inexact);
            }
            spans.end(self.offset(), self.points);
            match self.collections.end_member(&mut self.ids) {
                MemberEnd::Blob => {
                    self.restart();
                    return Ok(true);
                }
                MemberEnd::NextMember => {
                    self.next = NextItem::TypeByte;
                    return Ok(false);
                }
                MemberEnd::Collection(outer) => head = outer,
            }
        }
    }

    // Ends a geometry that has no body, or no members, as `end_geometry` does, and then pushes its
    // row, which the form must admit. `next` must be an item of a header after the type byte, or
    // the count of members. Returns whether the blob ends with it. Refused if the size of a geometry
    // that ends here is not exact. The row takes memory.
    #[tactic(auto, using(crate::proofs::Parts::headings))]
    pub(crate) fn end_empty<S: SpanNotes>(
        &mut self,
        flat: &mut Flat,
        spans: &mut S,
    ) -> Result<bool, Stop>
        requires header { IsHeaderItem self.old.next }
        requires row { Admits (own_row self.old) flat.old }
        ensures { GoesOn S.holds (past_end self.old) (own_row self.old) self.old flat.old spans.old result self.new
            flat.new spans.new }
    {
        let row = own_row(&self.head);
        let ends = self.end_geometry(spans)?;
        let Ok(()) = push_row(flat, row) else {
            return Err(Stop::Memory);
        };
        Ok(ends)
    }
}
