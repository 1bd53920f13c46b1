//! What holds of all blobs: the laws of the grammar that users of blobs ask for first, and what the
//! bytes determine of a session.
ghost use Rattle.std.specs.Prelude.{◌≡◌, ℕ, List};
ghost use Rattle.twkb_tree.specs.Tree.{Tree};
ghost use Rattle.twkb_tree.specs.Limits.{Allowance};
ghost use Rattle.twkb_blob.specs.Sessions.{HeldOf, FramesOf};

pub use twkb_grammar::laws::{one_blob, written_is_blob};

/// The bytes of a stream that were fed to a session with given limits determine how many of them it
/// holds, and how many geometries are begun and not finished.
pub fn one_count()
    ensures held { (limits : Allowance) (bytes : List ℕ) (gs hs : List Tree) (m n : ℕ)
        → HeldOf limits bytes gs m → HeldOf limits bytes hs n → m ≡ n }
    ensures frames { (limits : Allowance) (bytes : List ℕ) (gs hs : List Tree) (m n : ℕ)
        → FramesOf limits bytes gs m → FramesOf limits bytes hs n → m ≡ n }
{}
