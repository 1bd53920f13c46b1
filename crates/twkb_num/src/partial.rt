//! A reader of one spelling, unit by unit.
ghost use Rattle.std.specs.Prelude.{◌≡◌, ◌^◌, ◌<◌, [], length};
ghost use Rattle.twkb_num.specs.Answer.{IsAnswer, held_after};
ghost use Rattle.twkb_num.specs.Spelling.{IsOpen};

use crate::groups::Groups;
use std::marker::{Model, PhantomData};

/// Reads a spelling unit by unit, so that the input may come in pieces. A contract sees the list
/// of units that it holds: those taken since the last spelling ended or was refused.
#[derive(Drop)]
pub struct Partial<G: Groups> {
    value: u64,
    len: usize,
    alphabet: PhantomData<G>,
}

impl<G: Groups> Model for Partial<G> {
    ghost use Rattle.std.specs.Prelude.{ℕ, ◌<◌, ◌^◌, List};
    ghost use Rattle.twkb_num.specs.Spelling.{low_digits, open_units};

    ghost Value = { List ℕ };

    ghost view = { λ p. open_units G.unit_of (low_digits (2 ^ G.BITS) p.len p.value) };

    ghost invariant = { λ p. (p.len < G.MAX_LEN) × (p.value < (2 ^ G.BITS) ^ p.len) };
}

impl<G: Groups> Partial<G> {
    /// Makes a reader that holds no unit. Takes no memory.
    pub fn new() -> Self
        ensures { result ≡ [] }
    {
        Partial {
            value: 0,
            len: 0,
            alphabet: PhantomData,
        }
    }

    /// The number of units held, 0 to `G::MAX_LEN - 1`; they begin a spelling and do not end it.
    /// Takes no memory.
    pub fn len(&self) -> usize
        ensures count { result ≡ length self.now }
        ensures short { result < G.MAX_LEN }
        ensures held { IsOpen G.unit_of (2 ^ G.BITS) G.MAX_LEN self.now }
    {
        self.len
    }

    /// Takes the next unit, which may be any byte, and says whether the spelling goes on, ends with
    /// it, or is refused. After `More` the reader holds this unit too; after any other answer it
    /// holds no unit, and can begin another spelling. Takes no memory.
    pub fn step(&mut self, unit: u8) -> Step
        ensures answer { IsAnswer G.unit_of G.group_of (2 ^ G.BITS) G.MAX_LEN self.old unit result }
        ensures held { self.new ≡ held_after self.old unit result }
    {
        let Some((group, more)) = G::from_unit(unit) else {
            self.clear();
            return Step::BadUnit;
        };
        let group = group as u64;
        let bits = G::BITS;
        let shift = bits * self.len as u32;
        if more {
            if self.len + 1 == G::MAX_LEN {
                self.clear();
                return Step::TooLong;
            }
            self.value += group << shift;
            self.len += 1;
            return Step::More;
        }
        if group > u64::MAX >> shift {
            self.clear();
            return Step::TooLong;
        }
        let value = self.value + (group << shift);
        let shortest = group != 0 || self.len == 0;
        self.clear();
        Step::Done { value, shortest }
    }

    // Drops the units held, so that the next unit begins a spelling.
    fn clear(&mut self)
        ensures { self.new ≡ [] }
    {
        self.value = 0;
        self.len = 0;
    }
}

/// The answer of a `Partial` to a unit.
#[derive(Clone, Copy, Debug, PartialEq, Eq)]
pub enum Step {
    /// The spelling goes on: the unit says that more follow, and there is room for more.
    More,
    /// The unit ends a spelling.
    Done {
        /// The number that the spelling stands for.
        value: u64,
        /// Whether it is the shortest spelling of this number.
        shortest: bool,
    },
    /// The unit is not in the alphabet.
    BadUnit,
    /// The unit is number `MAX_LEN` and says that more follow, or the number is 2^64 or above.
    TooLong,
}
