//! The numbers of the two alphabets, and an alphabet as a value, for code that reads or writes
//! several units at once.

/// The number of bits in a byte of a varint (TWKB specification; LEB128).
pub const VARINT_BITS: u32 = 7;

/// The bit that is set in each byte of a varint but its last (TWKB specification; LEB128).
pub const GOES_ON: u8 = 1 << VARINT_BITS;

/// The number of bits in a character of a polyline (Encoded Polyline Algorithm Format).
pub const CHARACTER_BITS: u32 = 5;

/// What is added to the group in a character of a polyline, if more follow (Encoded Polyline
/// Algorithm Format).
pub const CHARACTER_GOES_ON: u8 = 1 << CHARACTER_BITS;

/// The first character of polylines, 63: that of the group 0, if none follows (Encoded Polyline
/// Algorithm Format).
pub const FIRST_CHARACTER: u8 = b'?';

/// The first character that says that more follow: that of the group 0.
pub const FIRST_OPEN: u8 = FIRST_CHARACTER + CHARACTER_GOES_ON;

/// The last character that ends a number.
pub const LAST_END: u8 = FIRST_OPEN - 1;

/// The last character of the alphabet.
pub const LAST_CHARACTER: u8 = LAST_END + CHARACTER_GOES_ON;

/// How the units of an alphabet are numbered.
#[derive(Clone, Copy)]
pub struct Alphabet {
    /// The unit of the group 0, if no unit follows.
    pub base: u8,
    /// The number of groups. A unit after which more follow is greater by this number.
    pub radix: u8,
    /// The difference between the greatest unit and `base`.
    pub most: u8,
}

// The bytes of varints (TWKB specification; LEB128).
pub(crate) const VARINTS: Alphabet = Alphabet {
    base: 0,
    radix: GOES_ON,
    most: u8::MAX,
};

// The characters of polylines (Encoded Polyline Algorithm Format).
pub(crate) const POLYLINES: Alphabet = Alphabet {
    base: FIRST_CHARACTER,
    radix: CHARACTER_GOES_ON,
    most: LAST_CHARACTER - FIRST_CHARACTER,
};
