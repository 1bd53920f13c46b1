//! Codes of points, each of which is spelled by its step from the point before it.
ghost use Rattle.std.specs.Prelude.{◌≡◌, ℕ, ℤ, List};
ghost use Rattle.twkb_num.specs.Block.{SignedInFront};
ghost use Rattle.twkb_points.specs.Steps.{TwoInFront, varint_step, character_step};

use twkb_num::{Five, Four, Leb128, Numbered};

/// A code of points: how numbers are spelled, and which axis comes first.
pub trait StepCode: Numbered {
    /// The bytes of a step along x and y.
    ghost bytes_of: { ℤ → ℤ → List ℕ };

    /// Whether `eight_points` tests too that the fourth of its points is an inner one. With
    /// characters, fewer values then wait in memory; with varints, it costs more in wrong branches
    /// than it saves.
    const TESTS_FOURTH: bool;

    /// Makes two steps, each with x before y, from four numbers in the order in which the code
    /// spells them. The number of bytes stays the same. Takes no memory.
    fn x_first(four: Four) -> Four
        ensures steps { (bytes : List ℕ) → SignedInFront Self.unit_of Self.ALPHABET.radix bytes four
            → TwoInFront bytes_of bytes result.first result.second result.third result.fourth result.used }
        ensures used { result.used ≡ four.used };
}

/// The points of TWKB: varints, x before y (TWKB specification).
impl StepCode for Leb128 {
    ghost bytes_of = { varint_step };

    const TESTS_FOURTH: bool = false;

    #[inline(always)]
    fn x_first(four: Four) -> Four {
        four
    }
}

/// The points of polylines: characters, y (the latitude) before x (Encoded Polyline Algorithm
/// Format).
impl StepCode for Five {
    ghost bytes_of = { character_step };

    const TESTS_FOURTH: bool = true;

    #[inline(always)]
    fn x_first(four: Four) -> Four {
        Four {
            first: four.second,
            second: four.first,
            third: four.fourth,
            fourth: four.third,
            used: four.used,
        }
    }
}
