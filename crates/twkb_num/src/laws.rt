//! Laws of numbers and spellings, each stated as the contract of an empty function.
ghost use Rattle.std.specs.Prelude.{◌≡◌, ℕ, ℤ, negsuc, ◌-◌, ◌<◌, ◌≤◌, ◌^◌, ◌↔◌, Bool, [], ◌∷◌};
ghost use Rattle.std.specs.Prelude.{◌++◌, List, length, codes};
ghost use Rattle.twkb_num.specs.Alphabet.{leb_unit, leb_group, five_unit};
ghost use Rattle.twkb_num.specs.Answer.{IsAnswer, IsRefused};
ghost use Rattle.twkb_num.specs.Spelling.{IsSpelling, IsOpen, shortest, zigzag_of, unzigzag_of};
ghost use Rattle.twkb_num.specs.Varint.{IsVarint, IsOpenVarint, varint_of};
ghost use Rattle.twkb_num.specs.declared.partial.Step.{Step};
ghost use Rattle.twkb_num.specs.declared.partial.Step.TheVariants.{More, Done, TooLong};

use crate::groups::Groups;

/// No two numbers have the same zigzag form.
pub fn one_form()
    ensures { (m n : ℤ) → zigzag_of m ≡ zigzag_of n → m ≡ n }
{}

/// Zigzag and its inverse undo each other, for all numbers and all forms.
pub fn zigzag_undone()
    ensures number { (n : ℤ) → unzigzag_of (zigzag_of n) ≡ n }
    ensures form { (form : ℕ) → zigzag_of (unzigzag_of form) ≡ form }
{}

/// No spelling begins another of its alphabet, and each spells one number.
pub fn one_spelling<G: Groups>()
    ensures { (a b x y : List ℕ) (m n : ℕ) → IsSpelling G.unit_of (2 ^ G.BITS) G.MAX_LEN a m
        → IsSpelling G.unit_of (2 ^ G.BITS) G.MAX_LEN b n → a ++ x ≡ b ++ y → (a ≡ b) × (m ≡ n) }
{}

/// The shortest spelling of a number of 64 bits is one of its spellings.
pub fn shortest_spells<G: Groups>()
    ensures { (n : ℕ) → n < 2 ^ 64 → IsSpelling G.unit_of (2 ^ G.BITS) G.MAX_LEN (shortest G.unit_of (2 ^ G.BITS) n) n }
{}

/// No spelling of a number is shorter than the shortest, and no other is as short.
pub fn none_shorter<G: Groups>()
    ensures least { (us : List ℕ) (n : ℕ) → IsSpelling G.unit_of (2 ^ G.BITS) G.MAX_LEN us n
        → length (shortest G.unit_of (2 ^ G.BITS) n) ≤ length us }
    ensures only { (us : List ℕ) (n : ℕ) → IsSpelling G.unit_of (2 ^ G.BITS) G.MAX_LEN us n
        → length us ≤ length (shortest G.unit_of (2 ^ G.BITS) n)
        → us ≡ shortest G.unit_of (2 ^ G.BITS) n }
{}

/// At most one answer fits a unit after the units held, so `Partial::step` gives that answer.
pub fn one_answer<G: Groups>()
    ensures { (us : List ℕ) (u : ℕ) (a b : Step) → IsAnswer G.unit_of G.group_of (2 ^ G.BITS)
        G.MAX_LEN us u a → IsAnswer G.unit_of G.group_of (2 ^ G.BITS) G.MAX_LEN us u b → a ≡ b }
{}

/// `Partial::step` answers a unit that ends a spelling by `Done` with its number, and a unit that
/// leaves the spelling open by `More`.
pub fn due_answers<G: Groups>()
    ensures done { (us : List ℕ) (u n : ℕ) (a : Step)
        → IsSpelling G.unit_of (2 ^ G.BITS) G.MAX_LEN (us ++ u ∷ []) n
        → IsAnswer G.unit_of G.group_of (2 ^ G.BITS) G.MAX_LEN us u a → (short : Bool)
        × (a ≡ Done n short) }
    ensures more { (us : List ℕ) (u : ℕ) (a : Step)
        → IsOpen G.unit_of (2 ^ G.BITS) G.MAX_LEN (us ++ u ∷ [])
        → IsAnswer G.unit_of G.group_of (2 ^ G.BITS) G.MAX_LEN us u a → a ≡ More }
{}

/// After any units that a reader can hold, there is a unit that ends a spelling.
pub fn open_units_end<G: Groups>()
    ensures { (us : List ℕ) → IsOpen G.unit_of (2 ^ G.BITS) G.MAX_LEN us → (u n : ℕ)
        × IsSpelling G.unit_of (2 ^ G.BITS) G.MAX_LEN (us ++ u ∷ []) n }
{}

/// If a unit is refused after the units held, no spelling begins with those units and that one.
pub fn refused_units_end<G: Groups>()
    ensures { (us : List ℕ) (u : ℕ) (more : List ℕ) (n : ℕ)
        → IsRefused G.unit_of G.group_of (2 ^ G.BITS) G.MAX_LEN us u
        → IsSpelling G.unit_of (2 ^ G.BITS) G.MAX_LEN (us ++ u ∷ more) n → ⊥ }
{}

/// Varints are the spellings in `Leb128`, and the beginnings of varints are its open units.
pub fn varints()
    ensures whole { (bytes : List ℕ) (n : ℕ) → IsVarint bytes n ↔ IsSpelling leb_unit 128 10 bytes n }
    ensures begun { (bytes : List ℕ) → IsOpenVarint bytes ↔ IsOpen leb_unit 128 10 bytes }
{}

/// After at most nine bytes of a varint, each with its top bit set, a byte is refused as `TooLong`
/// exactly if they are nine and it is above 1.
pub fn long_varints()
    ensures { (us : List ℕ) (u : ℕ) → IsOpenVarint us → u < 256
        → IsAnswer leb_unit leb_group 128 10 us u TooLong ↔ ((length us ≡ 9) × (2 ≤ u)) }
{}

/// Checks by computation that numbers of the public documents have the forms and spellings printed
/// there: 300 is a varint of Protocol Buffers, 624485 one of LEB128, and -17998321 the example of
/// the Encoded Polyline Algorithm Format. The varint of 2^64 - 1 has ten bytes.
#[tactic(auto, unfolding(crate::specs::Spelling::digits, crate::specs::Spelling::digits_within))]
pub fn samples()
    ensures zigzag { zigzag_of (negsuc 17998320) ≡ 35996641 }
    ensures three_hundred { varint_of 300 ≡ 0xAC ∷ 0x02 ∷ [] }
    ensures three_bytes { varint_of 624485 ≡ 0xE5 ∷ 0x8E ∷ 0x26 ∷ [] }
    ensures largest { varint_of (2 ^ 64 - 1) ≡ 0xFF ∷ 0xFF ∷ 0xFF ∷ 0xFF ∷ 0xFF ∷ 0xFF ∷ 0xFF ∷ 0xFF
        ∷ 0xFF ∷ 0x01 ∷ [] }
    ensures characters { shortest five_unit 32 35996641 ≡ codes "`~oia@" }
{}
