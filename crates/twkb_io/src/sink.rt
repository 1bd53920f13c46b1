//! The trait of sinks, which take bytes.
ghost use Rattle.std.specs.Prelude.{◌≡◌, ◌≤◌, ◌+◌, ◌++◌, ℕ, List, [], length, OnOk, IfErr};
ghost use Rattle.twkb_io.specs.Sinks.{TookFront};

/// Takes bytes in order. A put is taken complete, or a prefix of it is taken and the put is
/// refused.
pub trait Sink {
    /// Why a put was refused.
    type Fault;

    // From the first state to the second every put was accepted, and these are the bytes.
    ghost took: { Self → List ℕ → Self → Type 0 };

    // From the first state to the second these bytes were handed over, and the last put was
    // refused.
    ghost refused: { Self → List ℕ → Self.Fault → Self → Type 0 };

    // The number of bytes taken.
    ghost taken: { Self → ℕ };

    /// Takes the bytes: all of them if it returns `Ok`, otherwise a prefix of them. Some sinks take
    /// memory for it.
    fn put(&mut self, bytes: &[u8]) -> Result<(), Self::Fault>
        ensures ok { OnOk result (took self.old bytes.now self.new) }
        ensures err { IfErr result (λ fault. TookFront refused self.old bytes.now fault self.new) };

    // A state that stays as it is has taken the empty list.
    ghost takes_nothing: { (s : Self) → took s [] s };

    // Two lists taken one after the other are their join, taken.
    ghost takes_join: { (a b c : Self) (xs ys : List ℕ) → took a xs b → took b ys c → took a (xs ++ ys) c };

    // A list taken and then a list refused are their join, refused.
    ghost refuses_join: { (a b c : Self) (xs ys : List ℕ) (fault : Self.Fault) → took a xs b
        → refused b ys fault c → refused a (xs ++ ys) fault c };

    // The length of the bytes taken is added to the number.
    ghost adds_up: { (a b : Self) (xs : List ℕ) → took a xs b → taken b ≡ taken a + length xs };

    // After a refusal at most the bytes handed over were taken, and none was given back.
    ghost adds_no_more: { (a b : Self) (xs : List ℕ) (fault : Self.Fault) → refused a xs fault b
        → (taken a ≤ taken b) × (taken b ≤ taken a + length xs) };
}
