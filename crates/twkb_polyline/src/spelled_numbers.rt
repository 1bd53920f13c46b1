//! Several numbers spelled at once, with no branch on their lengths: tracks mix numbers of one,
//! two and three characters, so such a branch can't be predicted.
ghost use Rattle.std.specs.Prelude.{◌≡◌, ◌+◌, ◌<◌, ◌≤◌, ◌^◌, [], ◌∷◌, ℕ, List, ◌++◌, length, OnOk};
ghost use Rattle.twkb_num.specs.Alphabet.{five_unit};
ghost use Rattle.twkb_num.specs.Spelling.{shortest};
ghost use Rattle.twkb_polyline.specs.Polyline.{spread, HasGroups};

use crate::piece::make_room;
use std::alloc::AllocError;
use std::simd::{u32x4, u64x2};
use twkb_num::{CHARACTER_BITS, CHARACTER_GOES_ON, FIRST_CHARACTER, Five, Groups, NumBuf, Piece};

// The room for four numbers in two words, since each word is stored whole.
const STEP: usize = 16;

// The room for four numbers of any size: 13 characters each, and the last words stored whole.
const FAR_STEP: usize = 64;

// Numbers below this have one group.
const TWO_GROUPS: u64 = 1 << CHARACTER_BITS;

// Numbers below this have at most four groups, which a lane of 32 bits holds.
const FOUR_GROUPS: u64 = 1 << (4 * CHARACTER_BITS);

// Numbers below this have at most eight groups, which a word of 64 bits holds.
const EIGHT_GROUPS: u64 = 1 << (8 * CHARACTER_BITS);

// Times a number below 0x100: that number in each of eight bytes.
const EACH_BYTE: u64 = 0x0101_0101_0101_0101;

// What says in each of eight characters that more follow.
const OPEN_MARKS: u64 = CHARACTER_GOES_ON as u64 * EACH_BYTE;

// What is added to each of eight groups.
const BASES: u64 = FIRST_CHARACTER as u64 * EACH_BYTE;

// Appends the characters of four numbers to the piece. If the piece has too little room, its
// characters are first moved to the text; if memory for that is refused, the numbers are not
// appended. Nearly all numbers of a track are below 2^20.
#[inline(always)]
#[tactic(auto, using(std::proofs::lemmas::Nat::le_or_l, std::proofs::lemmas::Nat::le_or_r))]
pub(crate) fn push_four(
    first: u64,
    second: u64,
    third: u64,
    fourth: u64,
    piece: &mut Piece<128>,
    text: &mut Vec<u8>,
) -> Result<(), AllocError>
    ensures appended { OnOk result (text.new.items ++ piece.new ≡ text.old.items ++ piece.old
        ++ ((shortest five_unit 32 first ++ shortest five_unit 32 second)
        ++ (shortest five_unit 32 third ++ shortest five_unit 32 fourth))) }
    ensures grown { (more : List ℕ) × (text.new.items ≡ text.old.items ++ more) }
{
    make_room(STEP, piece, text)?;
    let either = u64x2::from_array([first, second]) | u64x2::from_array([third, fourth]);
    let [low, high] = either.to_array();
    let all = low | high;
    if all < TWO_GROUPS {
        push_characters(first, second, third, fourth, piece);
        return Ok(());
    }
    if all >= FOUR_GROUPS {
        make_room(FAR_STEP, piece, text)?;
        push_two(first, second, piece);
        push_two(third, fourth, piece);
        return Ok(());
    }
    piece.push_four_characters(first as u32, second as u32, third as u32, fourth as u32);
    Ok(())
}

// Fast path: appends the characters of four numbers below 32, as short steps have: one each. The
// piece must have room for eight: one store writes a word of eight bytes, and four are counted.
#[inline(always)]
fn push_characters(first: u64, second: u64, third: u64, fourth: u64, piece: &mut Piece<128>)
    requires first_few { first < 32 }
    requires second_few { second < 32 }
    requires third_few { third < 32 }
    requires fourth_few { fourth < 32 }
    requires room { length piece.old + 8 ≤ 128 }
    ensures { piece.new ≡ piece.old
        ++ ((shortest five_unit 32 first ++ shortest five_unit 32 second)
        ++ (shortest five_unit 32 third ++ shortest five_unit 32 fourth)) }
{
    let characters = [
        one_character(first),
        one_character(second),
        one_character(third),
        one_character(fourth),
    ];
    piece.push_low(u64::from(u32::from_le_bytes(characters)), 4);
}

// The character of a number below 32, which has one group.
#[inline(always)]
fn one_character(number: u64) -> u8
    requires { number < 32 }
    ensures { shortest five_unit 32 number ≡ result ∷ [] }
{
    Five::to_unit(number as u8, false)
}

// Appends the characters of two numbers to the piece, at most 13 each. The piece must have room for
// 32. If both are below 2^40, each number fills two lanes, with its lower and its upper four
// groups.
#[inline(always)]
#[tactic(auto, using(std::proofs::lemmas::Nat::le_or_l, std::proofs::lemmas::Nat::le_or_r))]
pub(crate) fn push_two(first: u64, second: u64, piece: &mut Piece<128>)
    requires room { length piece.old + 32 ≤ 128 }
    ensures appended { piece.new ≡ piece.old ++ (shortest five_unit 32 first ++ shortest five_unit 32 second) }
    ensures most { length piece.new ≤ length piece.old + 26 }
{
    if first | second >= EIGHT_GROUPS {
        push_one(first, piece);
        push_one(second, piece);
        return;
    }
    let [low, high, second_low, second_high] = spread_four(
        (first % FOUR_GROUPS) as u32,
        (first / FOUR_GROUPS) as u32,
        (second % FOUR_GROUPS) as u32,
        (second / FOUR_GROUPS) as u32,
    )
    .to_array();
    push_spread(first, u64::from(low) + (u64::from(high) << 32), piece);
    push_spread(
        second,
        u64::from(second_low) + (u64::from(second_high) << 32),
        piece,
    );
}

// Appends the characters of a number of any size to the piece, which must have room for 13. Out of
// line: few texts need it.
#[inline(never)]
fn push_one(number: u64, piece: &mut Piece<128>)
    requires room { length piece.old + 13 ≤ 128 }
    ensures appended { piece.new ≡ piece.old ++ shortest five_unit 32 number }
    ensures most { length piece.new ≤ length piece.old + 13 }
{
    piece.push_all(NumBuf::put::<Five>(number).as_slice());
}

// Spreads the four groups of each of four numbers below 2^20 over the four bytes of its lane, low
// group first.
#[inline(always)]
fn spread_four(first: u32, second: u32, third: u32, fourth: u32) -> u32x4
    requires first_few { first < 2 ^ 20 }
    requires second_few { second < 2 ^ 20 }
    requires third_few { third < 2 ^ 20 }
    requires fourth_few { fourth < 2 ^ 20 }
    ensures { result ≡ spread 4 first ∷ spread 4 second ∷ spread 4 third ∷ spread 4 fourth ∷ [] }
{
    let numbers = u32x4::from_array([first, second, third, fourth]);
    let group = u32x4::splat(TWO_GROUPS as u32 - 1);
    (numbers & group)
        + ((numbers >> CHARACTER_BITS & group) << 8)
        + ((numbers >> (2 * CHARACTER_BITS) & group) << 16)
        + ((numbers >> (3 * CHARACTER_BITS)) << 24)
}

// Appends the characters of a number below 2^40. `groups` must have its groups, one in each byte,
// low group first. The piece must have room for eight: one store writes eight bytes, and those past
// the characters are not counted.
#[inline(always)]
fn push_spread(number: u64, groups: u64, piece: &mut Piece<128>)
    requires few { number < 2 ^ 40 }
    requires groups { groups ≡ spread 8 number }
    requires room { length piece.old + 8 ≤ 128 }
    ensures appended { piece.new ≡ piece.old ++ shortest five_unit 32 number }
    ensures most { length piece.new ≤ length piece.old + 8 }
{
    let count = group_count(number);
    let marks = OPEN_MARKS % (1 << (8 * count - 8));
    piece.push_low(groups + marks + BASES, count);
}

// The number of groups of five bits in a number below 2^40: 1 for 0, and 8 at most.
#[inline(always)]
fn group_count(number: u64) -> u32
    requires { number < 2 ^ 40 }
    ensures groups { HasGroups number result }
    ensures few { result ≤ 8 }
{
    (63 + CHARACTER_BITS - (number | 1).leading_zeros()) / CHARACTER_BITS
}
