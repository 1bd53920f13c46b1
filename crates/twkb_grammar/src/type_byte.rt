//! The type byte: the type in the lower half, the precision in the upper (TWKB, type and
//! precision).
ghost use Rattle.std.specs.Prelude.{◌≡◌, ◌≢◌, ◌<◌, ◌/◌, ◌%◌, nat_eq};
ghost use Rattle.twkb_num.specs.Spelling.{unzigzag_of};
ghost use Rattle.twkb_tree.specs.Tree.{IsPrecision};
ghost use Rattle.twkb_tree.specs.declared.kind.Kind.TheVariants.{Ring};
ghost use Rattle.twkb_grammar.specs.Machine.{kind_at};
ghost use Rattle.twkb_grammar.specs.Noting.{shown};
ghost use Rattle.twkb_grammar.specs.Roles.{type_of, type_byte, names_type};

use std::marker::Model;
use twkb_num::zigzag;
use twkb_tree::Kind;

// The number of values of half a byte, by which the upper half is multiplied.
const HALF: u8 = 16;

// The lower half of a point's type byte.
const POINT: u8 = 1;

// The greatest number of a type.
const LAST_TYPE: u8 = 7;

/// The type byte of a geometry (TWKB, type and precision). A contract sees its number.
#[derive(Clone, Copy, Debug, PartialEq, Eq)]
pub struct TypeByte {
    byte: u8,
}

impl Model for TypeByte {
    ghost use Rattle.std.specs.Prelude.{ℕ};

    ghost Value = { ℕ };

    ghost view = { λ t. t.byte };

    ghost inverse = { λ n. record { byte = n } };
}

// The number of a kind's type in TWKB, 1 for a point to 7 for a collection; 0 for a ring, which is
// not a type.
#[inline]
fn type_number(kind: Kind) -> u8
    ensures number { result ≡ type_of kind }
    ensures small { result < 8 }
{
    match kind {
        Kind::Ring => 0,
        Kind::Point => POINT,
        Kind::Linestring => 2,
        Kind::Polygon => 3,
        Kind::MultiPoint => 4,
        Kind::MultiLinestring => 5,
        Kind::MultiPolygon => 6,
        Kind::Collection => LAST_TYPE,
    }
}

impl TypeByte {
    /// Makes the type byte of a geometry of this kind and precision. A precision from -8 to 7 is
    /// read back as it was; of another, only the lowest four bits of the zigzag form are kept. For
    /// a ring, which has no type, the lower half is 0. Takes no memory.
    #[inline]
    pub fn of(kind: Kind, precision: i8) -> TypeByte
        ensures number { result ≡ type_byte kind precision }
        ensures kind { kind ≢ Ring → shown (kind_at (result % 16)) ≡ kind }
        ensures precision { IsPrecision precision → unzigzag_of (result / 16) ≡ precision }
    {
        let bits = (zigzag(precision as i64) % 16) as u8;
        TypeByte {
            byte: type_number(kind) + HALF * bits,
        }
    }

    /// The type byte that is this byte, whatever its bits. Takes no memory.
    #[inline]
    pub fn from_byte(byte: u8) -> TypeByte
        ensures { result ≡ byte }
    {
        TypeByte { byte }
    }

    /// The type byte that is the lowest byte of a number: the number itself if it is below 256. Takes
    /// no memory.
    #[inline]
    pub fn from_number(number: u64) -> TypeByte
        ensures whole { number < 256 → result ≡ number }
        ensures kind { result % 16 ≡ number % 16 }
    {
        TypeByte {
            byte: (number % 256) as u8,
        }
    }

    /// The type byte as a number. Takes no memory.
    #[inline]
    pub fn byte(self) -> u8
        ensures { result ≡ self }
    {
        self.byte
    }

    /// Whether the lower half is the number of a type, 1 to 7. Takes no memory.
    #[inline]
    pub fn names_type(self) -> bool
        ensures { result ≡ names_type self }
    {
        let number = self.byte % HALF;
        number != 0 && number <= LAST_TYPE
    }

    /// Whether the type is point. Takes no memory.
    #[inline]
    pub fn is_point(self) -> bool
        ensures { result ≡ nat_eq (self % 16) 1 }
    {
        self.byte % HALF == POINT
    }

    /// The kind that the lower half names, never `Ring`; `Collection` if it names no type. Takes no
    /// memory.
    #[inline]
    pub fn kind(self) -> Kind
        ensures { result ≡ shown (kind_at (self % 16)) }
    {
        match self.byte % HALF {
            POINT => Kind::Point,
            2 => Kind::Linestring,
            3 => Kind::Polygon,
            4 => Kind::MultiPoint,
            5 => Kind::MultiLinestring,
            6 => Kind::MultiPolygon,
            _ => Kind::Collection,
        }
    }

    /// The number of decimals of the coordinates, -8 to 7, which the upper half spells in zigzag
    /// form. Takes no memory.
    #[inline]
    pub fn precision(self) -> i8
        ensures value { result ≡ unzigzag_of (self / 16) }
        ensures fits { IsPrecision result }
    {
        let form = self.byte / HALF;
        let size = (form >> 1) as i8;
        if form & 1 == 1 { !size } else { size }
    }
}
