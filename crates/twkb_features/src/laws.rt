//! Laws of what GeoJSON says, each stated as the contract of an empty function.
ghost use Rattle.std.specs.Prelude.{◌≡◌, ℕ, ℤ, List, pos, negsuc, codes, Some, ◌-◌, ◌^◌};
ghost use Rattle.twkb_features.specs.Decimal.{IsUnits, FindsUnits};

/// A text says one coordinate at most.
pub fn one_coordinate()
    ensures { (precision u v : ℤ) (text : List ℕ) → IsUnits precision text u → IsUnits precision text v → u ≡ v }
{}

/// Checks by computation that halves, long decimals, exponents and the greatest coordinate are read
/// as RFC 8259 and the choices of this project have them.
pub fn samples()
    ensures half { FindsUnits (pos 0) (codes "0.5") (Some (pos 1)) }
    ensures half_below { FindsUnits (pos 0) (codes "-0.5") (Some (negsuc 0)) }
    ensures exact { FindsUnits (pos 2) (codes "1.005") (Some (pos 101)) }
    ensures under { FindsUnits (pos 5) (codes "0.01591499999999999999") (Some (pos 1591)) }
    ensures tens { FindsUnits (negsuc 7) (codes "-0.5E+8") (Some (negsuc 0)) }
    ensures greatest { FindsUnits (pos 0) (codes "4611686018427387903.4999999999") (Some (pos (2 ^ 62 - 1))) }
{}
