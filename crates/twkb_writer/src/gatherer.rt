//! Bytes on their way to a sink, gathered in a piece.
ghost use Rattle.std.specs.Prelude.{◌≡◌, ◌≤◌, ◌+◌, ◌++◌, ◌-ℤ◌, length, flat_map, [], ◌∷◌};
ghost use Rattle.twkb_num.specs.Spelling.{zigzag_of};
ghost use Rattle.twkb_num.specs.Varint.{varint_of};
ghost use Rattle.twkb_writer.specs.Bytes.{signed, id_bytes, step_bytes};

use crate::piece::Piece;
use std::mem::replace;
use twkb_io::Sink;
use twkb_num::zigzag;
use twkb_points::{Cursor, Pt};

// The most bytes of the four numbers of two points.
const STEP: usize = 40;

// A sink with a piece that gathers bytes on their way to it, and the fault of the first put that
// the sink refused. Bytes that are put into the gatherer go to the piece, which is sent when it
// lacks room; after a fault they are lost.
#[derive(Drop)]
pub(crate) struct Gatherer<'a, 'b, 'c, S, F> {
    pub(crate) sink: &'a mut S,
    pub(crate) piece: &'b mut Piece,
    pub(crate) fault: &'c mut Option<F>,
}

// Moves the cursor to a point, and returns how far it moved along x and along y, both in zigzag
// form.
pub(crate) fn step_to(cursor: &mut Cursor, to: Pt) -> (u64, u64)
    ensures x { result.0 ≡ zigzag_of (to.x -ℤ cursor.old.x) }
    ensures y { result.1 ≡ zigzag_of (to.y -ℤ cursor.old.y) }
    ensures moved { cursor.new ≡ to }
{
    let (x, y) = cursor.delta(to);
    (zigzag(x), zigzag(y))
}

impl<'a, 'b, 'c, S: Sink> Gatherer<'a, 'b, 'c, S, S::Fault> {
    ghost use Rattle.twkb_writer.specs.Bytes.{Put};

    // Sends the bytes of the piece to the sink by one put, keeps its fault if it refuses, and
    // empties the piece. After an earlier fault it only empties the piece.
    #[inline(always)]
    pub(crate) fn flush(&mut self)
        ensures put { Put S.took S.refused self.old [] self.new }
        ensures empty { self.new.piece.now ≡ [] }
    {
        if self.fault.is_some() {
            self.piece.clear();
            return;
        }
        let refused = self.sink.put(self.piece.as_slice()).err();
        self.piece.clear();
        match replace(self.fault, refused) {
            None => {}
            Some(_before) => unreachable!(),
        }
    }

    // Empties the piece by `flush` if it has no room for 40 bytes, the most that two points have.
    #[inline(always)]
    fn make_room(&mut self)
        ensures put { Put S.took S.refused self.old [] self.new }
        ensures room { length self.new.piece.now + 40 ≤ 4096 }
    {
        if self.piece.has_room(STEP) {
            return;
        }
        self.empty();
    }

    // Empties the piece by `flush`. Out of line: it is needed once for each full piece.
    #[inline(never)]
    fn empty(&mut self)
        ensures put { Put S.took S.refused self.old [] self.new }
        ensures room { length self.new.piece.now + 40 ≤ 4096 }
    {
        self.flush();
    }

    // Puts two bytes, as they are.
    #[inline(always)]
    pub(crate) fn put_two(&mut self, first: u8, second: u8)
        ensures { Put S.took S.refused self.old (first ∷ second ∷ []) self.new }
    {
        self.make_room();
        self.piece.push(first);
        self.piece.push(second);
    }

    // Puts a number as its shortest varint.
    #[inline(always)]
    pub(crate) fn put_number(&mut self, number: u64)
        ensures { Put S.took S.refused self.old (varint_of number) self.new }
    {
        self.make_room();
        self.piece.push_varint(number);
    }

    // Puts a signed number as the shortest varint of its zigzag form.
    #[inline(always)]
    fn put_signed(&mut self, number: i64)
        ensures { Put S.took S.refused self.old (signed number) self.new }
    {
        self.put_number(zigzag(number));
    }

    // Puts an id, if there is one, as the shortest varint of its zigzag form.
    #[inline(always)]
    pub(crate) fn put_id(&mut self, id: Option<i64>)
        ensures { Put S.took S.refused self.old (id_bytes id) self.new }
    {
        match id {
            Some(id) => self.put_signed(id),
            None => {}
        }
    }

    // Puts four signed numbers, each as the shortest varint of its zigzag form.
    #[inline(always)]
    pub(crate) fn put_four(&mut self, first: i64, second: i64, third: i64, fourth: i64)
        ensures { Put S.took S.refused self.old (flat_map signed (first ∷ second ∷ third ∷ fourth ∷ [])) self.new }
    {
        self.make_room();
        self.piece.push_four_varints(zigzag(first), zigzag(second), zigzag(third), zigzag(fourth));
    }

    // Puts the differences in x and in y from the cursor to a point, each as the shortest varint of
    // its zigzag form, and moves the cursor there.
    #[inline(always)]
    pub(crate) fn put_step(&mut self, cursor: &mut Cursor, to: Pt)
        ensures put { Put S.took S.refused self.old (step_bytes (to.x -ℤ cursor.old.x, to.y -ℤ cursor.old.y)) self.new }
        ensures moved { cursor.new ≡ to }
    {
        self.make_room();
        let (x, y) = step_to(cursor, to);
        self.piece.push_two_varints(x, y);
    }

    // Puts the differences in x and in y from the cursor to a first point and from that to a
    // second, each as the shortest varint of its zigzag form, and moves the cursor to the second.
    #[inline(always)]
    pub(crate) fn put_steps(&mut self, cursor: &mut Cursor, first: Pt, second: Pt)
        ensures put { Put S.took S.refused self.old (step_bytes
            (first.x -ℤ cursor.old.x, first.y -ℤ cursor.old.y) ++ step_bytes
            (second.x -ℤ first.x, second.y -ℤ first.y)) self.new }
        ensures moved { cursor.new ≡ second }
    {
        self.make_room();
        let (x, y) = step_to(cursor, first);
        let (next_x, next_y) = step_to(cursor, second);
        self.piece.push_four_varints(x, y, next_x, next_y);
    }
}
