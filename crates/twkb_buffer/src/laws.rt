//! Laws of what the contracts cite, each stated as the contract of an empty function.
ghost use Rattle.std.specs.Prelude.{◌≡◌, ◌≢◌, ◌≤◌, ℕ, ℤ, ◌-◌, ◌*◌, ◌^◌, Bool, nat_le};
ghost use Rattle.std.specs.Float.{binary64, fin};
ghost use Rattle.std.specs.Float.Ieee.{of_bits};
ghost use lib.Ieee.Exact.{HasValue};
ghost use Rattle.twkb_tree.specs.Tree.{IsPrecision};
ghost use Rattle.twkb_column.specs.Causes.{reason_words};
ghost use Rattle.twkb_column.specs.declared.fault.ColumnReason.{ColumnReason};
ghost use Rattle.twkb_rest.specs.Unpacked.{line_words};
ghost use Rattle.twkb_rest.specs.declared.fault.LineReason.{LineReason};
ghost use Rattle.twkb_buffer.specs.ColumnNumbers.{column_number_of, line_number_of};
ghost use Rattle.twkb_buffer.specs.Texts.{other_words};
ghost use Rattle.twkb_buffer.specs.RoundedNumbers.{IsFinite, exponent, significand, IsSize, IsUnit, above, below};
ghost use Rattle.twkb_buffer.specs.RoundedNumbers.{divisor_at, factor_at};

/// Bits of which `IsFinite` holds are those of the double with their sign, significand and
/// exponent; all other bits are those of no finite double.
pub fn a_double_has_its_parts()
    ensures finite { (bits : ℕ) → IsFinite bits → HasValue (of_bits binary64 bits) (nat_le (2 ^ 63) bits)
        (significand bits * 2 ^ (exponent bits - 1075)) (2 ^ (1075 - exponent bits)) }
    ensures other { (bits : ℕ) (sign : Bool) (m : ℕ) (e : ℤ) → (IsFinite bits → ⊥)
        → of_bits binary64 bits ≢ fin sign m e }
{}

/// At each precision a finite double has a size in whole units. It has a coordinate if its exact
/// size is at most 2^62 - 1 units.
pub fn some_unit()
    ensures size { (precision : ℤ) (number : ℕ) → IsPrecision precision → IsFinite number
        → (size : ℕ) × IsSize (factor_at precision) (divisor_at precision) number size }
    ensures unit { (precision : ℤ) (number : ℕ) → IsPrecision precision → IsFinite number
        → above (factor_at precision) number ≤ (2 ^ 62 - 1) * below (divisor_at precision) number
        → (unit : ℤ) × IsUnit (factor_at precision) (divisor_at precision) number unit }
{}

/// At one scale a double is rounded to at most one coordinate.
pub fn one_unit()
    ensures { (factor divisor number : ℕ) (m n : ℤ) → IsUnit factor divisor number m
        → IsUnit factor divisor number n → m ≡ n }
{}

/// The number of each reason of a column has its words.
pub fn column_texts()
    ensures csv { (reason : ColumnReason) → other_words (column_number_of reason) ≡ reason_words reason }
    ensures lines { (reason : LineReason) → other_words (line_number_of reason) ≡ line_words reason }
{}
