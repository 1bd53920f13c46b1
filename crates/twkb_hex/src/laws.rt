//! Laws of columns of digits, each stated as the contract of an empty function.
ghost use Rattle.std.specs.Prelude.{◌≡◌, List};
ghost use Rattle.twkb_tree.specs.Limits.{Allowance, IsAllowance};
ghost use Rattle.twkb_csv.specs.Named.{Record};
ghost use Rattle.twkb_hex.specs.Fields.{Packed, Unpacked, Way};
ghost use Rattle.twkb_hex.specs.Rows.{Converts};
ghost use Rattle.twkb_hex.specs.Again.{unpacking_of, with_empty};
ghost use Rattle.twkb_hex.specs.declared.packing.Packing.{Packing};

/// Packing and unpacking each make one thing of records: what they become is determined.
pub fn one_conversion()
    ensures { (way : Way) (records a b : List Record) → Converts way records a → Converts way records b → a ≡ b }
{}

/// What a column was packed to is unpacked, within the same limits, to the records that were packed,
/// but with an empty field for each word for a missing value.
pub fn unpack_of_pack()
    ensures { (p : Packing) (l : Allowance) (records packed : List Record) → IsAllowance l
        → Converts (Packed p l) records packed
        → Converts (Unpacked (unpacking_of p) l) packed (with_empty p records) }
{}
