//! Numbers at the start of bytes.
ghost use Rattle.std.specs.Prelude.{◌<◌, ◌^◌, IfSome};
ghost use Rattle.twkb_body.specs.Front.{NumberInFront, IsFront};

use twkb_num::{FIVE_BYTES, FOUR_BYTES, GOES_ON, Leb128, Partial, Step, THREE_BYTES, TWO_BYTES};

/// The number at the start of some bytes, or why none is complete there (TWKB, varints; LEB128).
#[derive(Clone, Copy, Debug)]
pub enum FrontNumber {
    /// The number, and how many bytes its varint has.
    Complete { number: u64, width: usize },
    /// The bytes end before the varint does.
    Cut,
    /// The varint has more than ten bytes, or its number is 2^64 or above (profile).
    TooLong,
}

// Reads the varint at the start of the bytes if it is complete and has at most five bytes, and
// returns its number, below 2^35, and how many bytes it has; else `None`. Nearly all numbers take
// this path, since steps between degrees of six decimals have at most five bytes.
#[inline(always)]
pub(crate) fn short_number(bytes: &[u8]) -> Option<(u64, usize)>
    ensures front { IfSome result (λ front. NumberInFront bytes.now front.0 front.1) }
    ensures small { IfSome result (λ front. front.0 < 2 ^ 35) }
{
    let first = *bytes.first()?;
    if first < GOES_ON {
        return Some((u64::from(first), 1));
    }
    let low = u64::from(first - GOES_ON);
    let second = *bytes.get(1)?;
    if second < GOES_ON {
        return Some((low + u64::from(second) * TWO_BYTES, 2));
    }
    let low = low + u64::from(second - GOES_ON) * TWO_BYTES;
    let third = *bytes.get(2)?;
    if third < GOES_ON {
        return Some((low + u64::from(third) * THREE_BYTES, 3));
    }
    let low = low + u64::from(third - GOES_ON) * THREE_BYTES;
    let fourth = *bytes.get(3)?;
    if fourth < GOES_ON {
        return Some((low + u64::from(fourth) * FOUR_BYTES, 4));
    }
    let low = low + u64::from(fourth - GOES_ON) * FOUR_BYTES;
    let fifth = *bytes.get(4)?;
    if fifth < GOES_ON {
        return Some((low + u64::from(fifth) * FIVE_BYTES, 5));
    }
    None
}

// Reads the varint at the start of the bytes, of up to ten bytes, or says why none is complete
// there. Takes no memory. It is called if `short_number` does not suffice for this number or for the
// other one of its point, which is rare.
#[cold]
#[inline(never)]
pub(crate) fn long_number(bytes: &[u8]) -> FrontNumber
    ensures { IsFront bytes.now result }
{
    twkb_num::laws::varints();
    let mut partial = Partial::<Leb128>::new();
    for (index, byte) in bytes.iter().enumerate() {
        // learnt: what it holds begins a number
        let _learnt = partial.len();
        match partial.step(*byte) {
            Step::More => {}
            Step::Done { value, .. } => {
                return FrontNumber::Complete {
                    number: value,
                    width: index + 1,
                };
            }
            Step::TooLong => return FrontNumber::TooLong,
            Step::BadUnit => return FrontNumber::TooLong,
        }
    }
    // learnt: what it holds begins a number
    let _learnt = partial.len();
    FrontNumber::Cut
}

/// Reads the varint at the start of the bytes, or says why none is complete there. Takes no memory.
#[inline(always)]
pub fn front_number(bytes: &[u8]) -> FrontNumber
    ensures { IsFront bytes.now result }
{
    if let Some((number, width)) = short_number(bytes) {
        return FrontNumber::Complete { number, width };
    }
    long_number(bytes)
}
