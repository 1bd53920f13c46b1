//! The writer of arrays: the rows of the open geometry, and the blobs of those before it.
ghost use Rattle.std.specs.Prelude.{◌≡◌, ◌⊎◌, ◌<◌, ◌≤◌, ◌+◌, List, ℕ, [], length, true, false, IfOk, OnOk, OnErr};
ghost use Rattle.twkb_tree.specs.Limits.{Allowance};
ghost use Rattle.twkb_tree.specs.Rows.{AreValidRowsOfOne};
ghost use Rattle.twkb_grammar.specs.declared.style.Style.{Style as InStyle};
ghost use Rattle.twkb_arrays.specs.SentBlobs.{IsSentWithin, blob_in};
ghost use Rattle.twkb_arrays.specs.WrittenArrays.{GoesOn, IsWriting, MarksTaken, PassesBlob, SendsBlob};
ghost use Rattle.twkb_arrays.specs.WrittenArrays.{StaysWriting};

use crate::blob_room::BlobRoom;
use crate::row::BufferRow;
use crate::sent_blobs::{Sent, send_blob};
use std::alloc::{AllocError, Global};
use twkb_flat::Flat;
use twkb_writer::Style;

// How many rows and points were read.
#[derive(Clone, Copy)]
pub(crate) struct ReadCounts {
    pub(crate) rows: usize,
    pub(crate) points: usize,
}

// The form of the open geometry, whose rows are being read, and the blobs of the geometries before
// it.
#[derive(Drop)]
pub(crate) struct Writer {
    pub(crate) open_geometry: Flat,
    pub(crate) room: BlobRoom,
    pub(crate) sent: Sent,
}

impl Writer {
    // Makes a writer that has read no row and written nothing into an output with this many bytes.
    // Takes no memory.
    pub(crate) fn new(alloc: Global, room: usize) -> Writer
        ensures writing { (l : Allowance) (style : InStyle) (output ends : List ℕ) → room ≡ length output
            → IsWriting l style output ends [] [] output ends result }
        ensures none { result.sent.passed ≡ 0 }
    {
        Writer {
            open_geometry: Flat::new(alloc),
            room: BlobRoom::new(alloc),
            sent: Sent::nothing(room),
        }
    }

    // Notes how many rows and points the blobs in the output took, unless a blob was passed: those
    // that were read but for the open geometry's.
    pub(crate) fn note(&mut self, read: ReadCounts)
        ensures marks { MarksTaken read self.old self.new }
        ensures passed { self.new.sent.passed ≡ self.old.sent.passed }
        ensures counts { self.new.sent ≡ record self.old.sent {
          rows = self.new.sent.rows;
          points = self.new.sent.points;
        } }
        ensures same { self.new ≡ record self.old { sent = self.new.sent } }
    {
        let rows = self.open_geometry.node_count() as usize;
        let points = self.open_geometry.point_count() as usize;
        self.sent.note(
            read.rows.saturating_sub(rows),
            read.points.saturating_sub(points),
        );
    }

    // Counts the blob that was made last as one without room, after so many rows and points were
    // read. If it is the first such blob, notes how many of these the blobs in the output took.
    #[cold]
    #[inline(never)]
    fn pass(&mut self, read: ReadCounts)
        ensures passes { PassesBlob (blob_in self.old.room) read self.old self.new }
        ensures within { (output ends : List ℕ) → IsSentWithin output ends self.old.sent
            → IsSentWithin output ends self.new.sent }
        ensures one { self.new.sent.passed ≤ self.old.sent.passed + 1 }
        ensures some { 0 < self.new.sent.passed }
        ensures same { self.new ≡ record self.old { sent = self.new.sent } }
    {
        self.note(read);
        let bytes = self.room.blob().len();
        self.sent.pass(bytes);
    }

    // Writes the blob that was made last, which must not be empty, with its end, if there is room
    // for both and was for all before; else only counts it. So many rows and points were read, but
    // for those of a blob that was made without a form. Returns whether writing goes on: not after
    // a blob without room if the call stops there. The outputs must be those that have the earlier
    // blobs.
    #[inline(always)]
    pub(crate) fn send(
        &mut self,
        stops: bool,
        read: ReadCounts,
        output: &mut [u8],
        ends: &mut [u64],
    ) -> bool
        requires some { 0 < length (blob_in self.old.room) }
        requires within { IsSentWithin output.old ends.old self.old.sent }
        ensures within { IsSentWithin output.new ends.new self.new.sent }
        ensures sends { SendsBlob (blob_in self.old.room) read output.old ends.old self.old output.new
            ends.new self.new }
        ensures on { result ≡ true → GoesOn stops self.new.sent }
        ensures off { result ≡ false → (stops ≡ true) × (0 < self.new.sent.passed) }
        ensures one { self.new.sent.passed ≤ self.old.sent.passed + 1 }
        ensures same { self.new ≡ record self.old { sent = self.new.sent } }
    {
        if send_blob(self.room.blob(), output, ends, &mut self.sent) {
            return true;
        }
        self.pass(read);
        !stops
    }

    // Ends the open geometry, if there is one: makes its blob, writes or counts it as `send` does,
    // and drops the rows; returns whether writing goes on. So many rows and points were read. An
    // `Err` is want of memory, and changes nothing but `self.room`.
    #[inline(always)]
    pub(crate) fn end_geometry(
        &mut self,
        style: Style,
        stops: bool,
        read: ReadCounts,
        output: &mut [u8],
        ends: &mut [u64],
    ) -> Result<bool, AllocError>
        requires within { IsSentWithin output.old ends.old self.old.sent }
        requires on { GoesOn stops self.old.sent }
        ensures within { OnOk result (IsSentWithin output.new ends.new self.new.sent) }
        ensures closed { OnOk result (self.new.open_geometry ≡ []) }
        ensures ended { OnOk result (StaysWriting style read output.old ends.old self.old output.new
            ends.new self.new) }
        ensures on { IfOk result (λ on. on ≡ true → GoesOn stops self.new.sent) }
        ensures off { IfOk result (λ on. on ≡ false → (stops ≡ true) × (0 < self.new.sent.passed)) }
        ensures one { self.new.sent.passed ≤ self.old.sent.passed + 1 }
        ensures same_output { OnErr result ((output.new ≡ output.old) × (ends.new ≡ ends.old)) }
        ensures same { OnErr result (self.new ≡ record self.old { room = self.new.room }) }
    {
        if self.open_geometry.is_empty() {
            return Ok(true);
        }
        self.room.make(&self.open_geometry, style)?;
        let goes_on = self.send(stops, read, output, ends);
        self.open_geometry.clear();
        Ok(goes_on)
    }

    // Ends the open geometry, as `end_geometry` does, if the row is a root; else changes nothing.
    #[inline(always)]
    pub(crate) fn end_before(
        &mut self,
        style: Style,
        stops: bool,
        read: ReadCounts,
        row: &BufferRow,
        output: &mut [u8],
        ends: &mut [u64],
    ) -> Result<bool, AllocError>
        requires within { IsSentWithin output.old ends.old self.old.sent }
        requires on { GoesOn stops self.old.sent }
        ensures within { OnOk result (IsSentWithin output.new ends.new self.new.sent) }
        ensures closed { OnOk result (row.now.depth ≡ 0 → self.new.open_geometry ≡ []) }
        ensures kept { OnOk result (self.new.open_geometry ≡ [] → (row.now.depth ≡ 0) ⊎ (self.old.open_geometry ≡ [])) }
        ensures valid { OnOk result ((l : Allowance) → AreValidRowsOfOne l self.old.open_geometry
            → AreValidRowsOfOne l self.new.open_geometry) }
        ensures ended { OnOk result (StaysWriting style read output.old ends.old self.old output.new
            ends.new self.new) }
        ensures on { IfOk result (λ on. on ≡ true → GoesOn stops self.new.sent) }
        ensures off { IfOk result (λ on. on ≡ false → (stops ≡ true) × (0 < self.new.sent.passed)
            × (self.new.open_geometry ≡ [])) }
        ensures one { self.new.sent.passed ≤ self.old.sent.passed + 1 }
        ensures same_output { OnErr result ((output.new ≡ output.old) × (ends.new ≡ ends.old)) }
        ensures same { OnErr result (self.new ≡ record self.old { room = self.new.room }) }
    {
        if row.depth > 0 {
            return Ok(true);
        }
        self.end_geometry(style, stops, read, output, ends)
    }
}
