//! The metadata byte: which parts come before the body, and whether there are ids and a body
//! (TWKB, metadata header).
ghost use Rattle.std.specs.Prelude.{◌≡◌, ℕ, ◌<◌, ◌≤◌, ◌^◌, false};
ghost use Rattle.twkb_grammar.specs.Bits.{bit};
ghost use Rattle.twkb_grammar.specs.Roles.{bit_value, metadata_number};

use std::marker::Model;

// Bit of a metadata byte: a box follows.
const BOX: u32 = 0;

// Bit of a metadata byte: a size follows.
const SIZE: u32 = 1;

// Bit of a metadata byte: ids follow the count of members.
const IDS: u32 = 2;

// Bit of a metadata byte: the extended dimensions byte follows.
const EXTENDED: u32 = 3;

// Bit of a metadata byte: there is no body.
const EMPTY: u32 = 4;

/// The flags in the metadata byte of a geometry without extended dimensions.
#[derive(Clone, Copy, Debug)]
pub struct MetadataFlags {
    /// A box follows.
    pub has_box: bool,
    /// A size follows.
    pub has_size: bool,
    /// Ids follow the count of members.
    pub has_ids: bool,
    /// There is no body.
    pub is_empty: bool,
}

/// The metadata byte of a geometry (TWKB, metadata header). A contract sees its number.
#[derive(Clone, Copy, Debug, PartialEq, Eq)]
pub struct Metadata {
    byte: u8,
}

impl Model for Metadata {
    ghost use Rattle.std.specs.Prelude.{ℕ};

    ghost Value = { ℕ };

    ghost view = { λ m. m.byte };

    ghost inverse = { λ n. record { byte = n } };
}

// The byte in which only the bit at `position` is set, or 0 if `is_set` is false. The position must
// be below 8; bit 0 is the lowest.
#[inline]
fn bit_if(is_set: bool, position: u32) -> u8
    requires { position < 8 }
    ensures value { result ≡ bit_value is_set position }
    ensures small { result ≤ 2 ^ position }
{
    u8::from(is_set) << position
}

impl Metadata {
    /// Makes the metadata byte with the bits of these flags, and with all other bits 0. Takes no
    /// memory.
    #[inline]
    pub fn of(flags: MetadataFlags) -> Metadata
        ensures number { result ≡ metadata_number flags }
        ensures has_box { bit result 0 ≡ flags.has_box }
        ensures has_size { bit result 1 ≡ flags.has_size }
        ensures has_ids { bit result 2 ≡ flags.has_ids }
        ensures has_extended { bit result 3 ≡ false }
        ensures is_empty { bit result 4 ≡ flags.is_empty }
    {
        Metadata {
            byte: bit_if(flags.has_box, BOX)
                + bit_if(flags.has_size, SIZE)
                + bit_if(flags.has_ids, IDS)
                + bit_if(flags.is_empty, EMPTY),
        }
    }

    /// The metadata byte that is this byte, whatever its bits. Takes no memory.
    #[inline]
    pub fn from_byte(byte: u8) -> Metadata
        ensures { result ≡ byte }
    {
        Metadata { byte }
    }

    /// The metadata byte that is the lowest byte of a number: the number itself if it is below 256.
    /// Takes no memory.
    #[inline]
    pub fn from_number(number: u64) -> Metadata
        ensures whole { number < 256 → result ≡ number }
        ensures bits { (k : ℕ) → k < 8 → bit result k ≡ bit number k }
    {
        Metadata {
            byte: (number % 256) as u8,
        }
    }

    /// The metadata byte of a geometry that has a body, and no ids and no optional parts: 0. Takes no
    /// memory.
    #[inline]
    pub fn plain() -> Metadata
        ensures { result ≡ 0 }
    {
        Metadata { byte: 0 }
    }

    /// The metadata byte of a geometry that has a body and a size, and no ids and no other optional
    /// part: 2. Takes no memory.
    #[inline]
    pub fn sized() -> Metadata
        ensures { result ≡ 2 }
    {
        Metadata { byte: 1 << SIZE }
    }

    /// The metadata byte as a number. Takes no memory.
    #[inline]
    pub fn byte(self) -> u8
        ensures { result ≡ self }
    {
        self.byte
    }

    // Whether the bit at `position` is set. The position must be below 8; bit 0 is the lowest.
    #[inline]
    fn has_bit(self, position: u32) -> bool
        requires { position < 8 }
        ensures { result ≡ bit self position }
    {
        self.byte >> position & 1 == 1
    }

    /// Whether a box follows in the header (bit 0). Takes no memory.
    #[inline]
    pub fn has_box(self) -> bool
        ensures { result ≡ bit self 0 }
    {
        self.has_bit(BOX)
    }

    /// Whether a size follows in the header (bit 1). Takes no memory.
    #[inline]
    pub fn has_size(self) -> bool
        ensures { result ≡ bit self 1 }
    {
        self.has_bit(SIZE)
    }

    /// Whether ids follow the count of members, if there are members (bit 2). Takes no memory.
    #[inline]
    pub fn has_ids(self) -> bool
        ensures { result ≡ bit self 2 }
    {
        self.has_bit(IDS)
    }

    /// Whether the extended dimensions byte follows (bit 3). Takes no memory.
    #[inline]
    pub fn has_extended(self) -> bool
        ensures { result ≡ bit self 3 }
    {
        self.has_bit(EXTENDED)
    }

    /// Whether the geometry has no body (bit 4). Takes no memory.
    #[inline]
    pub fn is_empty(self) -> bool
        ensures { result ≡ bit self 4 }
    {
        self.has_bit(EMPTY)
    }
}
