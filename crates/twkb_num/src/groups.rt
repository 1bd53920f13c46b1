//! Alphabets, in which numbers are spelled by groups of bits.
ghost use Rattle.std.specs.Prelude.{◌≡◌, ℕ, ◌<◌, ◌^◌, Bool, Option};
ghost use Rattle.twkb_num.specs.Alphabet.{AlphabetLaws, IsNumbered, leb_unit, leb_group, five_unit, five_group};
ghost use Rattle.twkb_num.specs.Alphabet.{leb_laws, leb_numbered, five_laws, five_numbered};
ghost use Rattle.twkb_num.specs.declared.alphabet.Alphabet.{Alphabet};
ghost use Rattle.twkb_num.specs.declared.alphabet.TheConstants.{POLYLINES, VARINTS};

use crate::alphabet::{
    Alphabet, CHARACTER_BITS, FIRST_CHARACTER, FIRST_OPEN, GOES_ON, LAST_CHARACTER, LAST_END,
    POLYLINES, VARINT_BITS, VARINTS,
};

/// An alphabet that spells numbers of 64 bits by groups of bits, low group first. Each unit is a
/// byte that stands for a group and says whether more follow.
pub trait Groups {
    /// The number of bits in a group, 5 to 7.
    const BITS: u32;

    ghost BITS: { ℕ };

    /// The most units in a spelling: as many as 2^64 - 1 needs.
    const MAX_LEN: usize;

    ghost MAX_LEN: { ℕ };

    /// The unit for a group and a mark that says whether more follow.
    ghost unit_of: { ℕ → Bool → ℕ };

    /// The group and mark that a unit stands for, if it is in the alphabet.
    ghost group_of: { ℕ → Option (ℕ × Bool) };

    /// Makes the unit that stands for a group below `2^BITS` and says, by `more`, whether more
    /// units follow. Takes no memory.
    fn to_unit(group: u8, more: bool) -> u8
        requires { group < 2 ^ BITS }
        ensures { result ≡ unit_of group more };

    /// The group, below `2^BITS`, that a unit stands for, and whether more units follow; `None` if
    /// the byte is not in the alphabet. Takes no memory.
    fn from_unit(unit: u8) -> Option<(u8, bool)>
        ensures { result ≡ group_of unit };

    ghost laws: { AlphabetLaws BITS MAX_LEN unit_of group_of };
}

/// An alphabet whose units have numbers one after the other, so that several of them can be read at
/// once.
pub trait Numbered: Groups {
    /// How the units are numbered.
    const ALPHABET: Alphabet;

    ghost ALPHABET: { Alphabet };

    ghost numbered: { IsNumbered Self.unit_of ALPHABET };
}

/// The bytes of varints: seven bits each, 128 added if more follow (TWKB specification; LEB128).
#[derive(Clone, Copy, Debug, PartialEq, Eq)]
pub struct Leb128;

impl Groups for Leb128 {
    const BITS: u32 = VARINT_BITS;

    ghost BITS = { 7 };

    const MAX_LEN: usize = 10;

    ghost MAX_LEN = { 10 };

    ghost unit_of = { leb_unit };

    ghost group_of = { leb_group };

    fn to_unit(group: u8, more: bool) -> u8 {
        if more { group + GOES_ON } else { group }
    }

    fn from_unit(unit: u8) -> Option<(u8, bool)> {
        if unit < GOES_ON {
            Some((unit, false))
        } else {
            Some((unit - GOES_ON, true))
        }
    }

    ghost laws = { leb_laws };
}

impl Numbered for Leb128 {
    const ALPHABET: Alphabet = VARINTS;

    ghost ALPHABET = { VARINTS };

    ghost numbered = { leb_numbered };
}

/// The characters `?` to `~` of encoded polylines: five bits each, plus 32 if more follow, plus
/// 63 (Encoded Polyline Algorithm Format).
#[derive(Clone, Copy, Debug, PartialEq, Eq)]
pub struct Five;

impl Groups for Five {
    const BITS: u32 = CHARACTER_BITS;

    ghost BITS = { 5 };

    const MAX_LEN: usize = 13;

    ghost MAX_LEN = { 13 };

    ghost unit_of = { five_unit };

    ghost group_of = { five_group };

    fn to_unit(group: u8, more: bool) -> u8 {
        if more {
            group + FIRST_OPEN
        } else {
            group + FIRST_CHARACTER
        }
    }

    fn from_unit(unit: u8) -> Option<(u8, bool)> {
        match unit {
            FIRST_CHARACTER..=LAST_END => Some((unit - FIRST_CHARACTER, false)),
            FIRST_OPEN..=LAST_CHARACTER => Some((unit - FIRST_OPEN, true)),
            _ => None,
        }
    }

    ghost laws = { five_laws };
}

impl Numbered for Five {
    const ALPHABET: Alphabet = POLYLINES;

    ghost ALPHABET = { POLYLINES };

    ghost numbered = { five_numbered };
}
