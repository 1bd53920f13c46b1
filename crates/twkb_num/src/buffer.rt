//! The shortest spelling of a number, in a small buffer.
ghost use Rattle.std.specs.Prelude.{◌≡◌, ◌^◌};
ghost use Rattle.twkb_num.specs.Spelling.{shortest};

use crate::groups::Groups;
use crate::piece::Piece;

// The most units in a spelling: 64 bits in groups of five.
const ROOM: usize = 13;

/// A piece that holds one spelling of 1 to 13 units. A contract sees the list of its units.
pub type NumBuf = Piece<13>;

impl Piece<13> {
    /// The shortest spelling of a number in an alphabet: a unit for each group of its bits up to
    /// the last that is not 0, and one for the number 0 (LEB128; Encoded Polyline Algorithm
    /// Format). Takes no memory.
    pub fn put<G: Groups>(number: u64) -> NumBuf
        ensures { result ≡ shortest G.unit_of (2 ^ G.BITS) number }
    {
        let bits = G::BITS;
        let mut units = [0; ROOM];
        let mut len = 0;
        let mut rest = number;
        while rest >> bits != 0 {
            let group = (rest & ((1 << bits) - 1)) as u8;
            units[len] = G::to_unit(group, true);
            len += 1;
            rest >>= bits;
        }
        units[len] = G::to_unit(rest as u8, false);
        Piece {
            bytes: units,
            len: len + 1,
        }
    }
}
