//! The two styles of a written blob.
ghost use Rattle.std.specs.Prelude.{◌≡◌, ◌↔◌, true};

/// Which parts a written blob has besides the type byte, the metadata byte and the body (TWKB
/// leaves it free; profile).
#[derive(Clone, Copy, Debug, PartialEq, Eq)]
pub enum Style {
    /// Each geometry has its exact size, and a tight box if it may have one.
    Full,
    /// No geometry has a size or a box.
    Plain,
}

impl Style {
    ghost use Rattle.twkb_grammar.specs.declared.style.Style.TheVariants.{Full};

    /// Whether the style is `Full`: geometries have sizes, and boxes if they may have them. Takes no
    /// memory.
    pub fn is_full(self) -> bool
        ensures { (result ≡ true) ↔ (self ≡ Full) }
    {
        matches!(self, Style::Full)
    }
}
