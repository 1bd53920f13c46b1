//! Blobs written into a slice one after another, each whole, with their ends.
ghost use Rattle.std.specs.Prelude.{◌≡◌, ◌+◌, ◌++◌, ◌∷◌, ◌⊎◌, ◌<◌, ◌≤◌, List, ℕ, [], length, take, drop, true, false};
ghost use Rattle.twkb_tree.specs.Tree.{saturated};
ghost use Rattle.twkb_grammar.specs.declared.style.Style.{Style};
ghost use Rattle.twkb_arrays.specs.SentBlobs.{HasSent, IsSentWithin, LacksRoomFor, LimitsAfter, Sends};

use crate::end_room::put_end;

// What was written of the blobs made so far.
#[derive(Clone, Copy)]
pub(crate) struct Sent {
    // The number of blobs in the slice.
    pub(crate) done: usize,
    // The number of bytes in the slice.
    pub(crate) bytes: usize,
    // The number of bytes that may be in the slice with one more blob: all that it has, if none was
    // passed and there is a place for one more end; else those in it, so that there is no room.
    pub(crate) limit: usize,
    // The number of rows that these blobs took, once a blob was passed or no more rows are read.
    pub(crate) rows: usize,
    // The number of points that they took.
    pub(crate) points: usize,
    // The number of blobs made after those in the slice: there was too little room for the first of
    // them.
    pub(crate) passed: u64,
    // The number of bytes of these blobs.
    pub(crate) passed_bytes: u64,
}

impl Sent {
    // What was written before the first blob into a slice with this many bytes: nothing.
    pub(crate) fn nothing(room: usize) -> Sent
        ensures sent { (style : Style) (output ends : List ℕ) → room ≡ length output
            → HasSent style output ends [] [] output ends result }
        ensures none { result.passed ≡ 0 }
    {
        Sent {
            done: 0,
            bytes: 0,
            limit: room,
            rows: 0,
            points: 0,
            passed: 0,
            passed_bytes: 0,
        }
    }

    // Counts a blob of this many bytes, for which there is no room, as passed, and leaves no room
    // for others; each count stays at most `u64::MAX`.
    pub(crate) fn pass(&mut self, bytes: usize)
        ensures { self.new ≡ record self.old {
          limit = self.old.bytes;
          passed = saturated (self.old.passed + 1);
          passed_bytes = saturated (self.old.passed_bytes + bytes);
        } }
    {
        self.limit = self.bytes;
        self.passed = self.passed.saturating_add(1);
        self.passed_bytes = self.passed_bytes.saturating_add(bytes as u64);
    }

    // Notes how many rows and points the blobs in the slice took, unless a blob was passed.
    pub(crate) fn note(&mut self, rows: usize, points: usize)
        ensures first { self.old.passed ≡ 0 → self.new ≡ record self.old { rows = rows; points = points } }
        ensures same { 0 < self.old.passed → self.new ≡ self.old }
        ensures counts { self.new ≡ record self.old { rows = self.new.rows; points = self.new.points } }
    {
        if self.passed > 0 {
            return;
        }
        self.rows = rows;
        self.points = points;
    }
}

// Writes a blob into a slice, from the place `first` on; the slice must have room for it there.
#[inline(always)]
fn put_from(blob: &[u8], output: &mut [u8], first: usize)
    requires { first + length blob.now ≤ length output.old }
    ensures { output.new ≡ take first output.old ++ (blob.now ++ drop (first + length blob.now) output.old) }
{
    let last = first + blob.len();
    output[first..last].copy_from_slice(blob);
}

// Writes the end of the blob that was written last, which is where the blobs in the slice end, into
// an array that has a place for it after those of the `done` blobs before; if it was the last
// place, there is no room for more blobs. Out of line, since few callers ask for ends.
#[cold]
#[inline(never)]
fn put_last_end(ends: &mut [u64], sent: &mut Sent)
    requires { sent.old.done < length ends.old }
    ensures put { ends.new ≡ take sent.old.done ends.old
        ++ ((sent.old.bytes ∷ []) ++ drop (sent.old.done + 1) ends.old) }
    ensures counts { sent.new ≡ record sent.old { limit = sent.new.limit } }
    ensures limits { LimitsAfter (length ends.old) sent.old sent.new }
{
    put_end(ends, sent.done, sent.bytes as u64);
    if sent.done + 1 == ends.len() {
        sent.limit = sent.bytes;
    }
}

// Writes the end of the blob that was written last, as `put_last_end` does, unless the array has no
// places: then no ends are asked for.
#[inline(always)]
fn note_end(ends: &mut [u64], sent: &mut Sent)
    requires { (length ends.old ≡ 0) ⊎ (sent.old.done < length ends.old) }
    ensures none { length ends.old ≡ 0 → ends.new ≡ ends.old }
    ensures put { sent.old.done < length ends.old → ends.new ≡ take sent.old.done ends.old
        ++ ((sent.old.bytes ∷ []) ++ drop (sent.old.done + 1) ends.old) }
    ensures counts { sent.new ≡ record sent.old { limit = sent.new.limit } }
    ensures limits { LimitsAfter (length ends.old) sent.old sent.new }
{
    if ends.is_empty() {
        return;
    }
    put_last_end(ends, sent);
}

// Writes a blob, which must not be empty, after those in a slice, and its end after theirs, if
// there is room for both and no blob was passed; returns whether it did. The slices must be those
// that `sent` counts the blobs of.
pub(crate) fn send_blob(blob: &[u8], output: &mut [u8], ends: &mut [u64], sent: &mut Sent) -> bool
    requires some { 0 < length blob.now }
    requires within { IsSentWithin output.old ends.old sent.old }
    ensures within { IsSentWithin output.new ends.new sent.new }
    ensures sends { result ≡ true → Sends blob.now output.old ends.old sent.old output.new ends.new sent.new }
    ensures none { result ≡ true → (sent.old.passed ≡ 0) × (sent.new.passed ≡ 0) }
    ensures lacks { result ≡ false → LacksRoomFor blob.now output.old ends.old sent.old }
    ensures same { result ≡ false → (output.new ≡ output.old) × (ends.new ≡ ends.old) × (sent.new ≡ sent.old) }
{
    if blob.len() > sent.limit - sent.bytes {
        return false;
    }
    put_from(blob, output, sent.bytes);
    sent.bytes += blob.len();
    note_end(ends, sent);
    sent.done += 1;
    true
}
