//! The reasons for which a text is no polyline, and their places.
ghost use Rattle.std.specs.Prelude.{◌≡◌, ◌≤◌, length};
ghost use Rattle.twkb_polyline.specs.Fault.{point_text_words};

use std::alloc::AllocError;
use thiserror::Error;

/// Why a text is no polyline: the first fault from its start (reasons and order: profile).
#[derive(Clone, Copy, Debug, PartialEq, Eq, Error)]
#[error("{}", self.text())]
pub enum PolyReason {
    /// A character with a code outside 63 to 126.
    BadChar,
    /// The text ends before the last character of a number.
    Cut,
    /// A thirteenth character of a number that goes on, or whose group is 16 or more.
    TooLong,
    /// A number of more than one character whose last group is 0.
    Padded,
    /// The text ends after a latitude.
    Half,
    /// A coordinate outside -2^62 to 2^62 - 1.
    Range,
    /// Text is left after as many points as allowed.
    TooMany,
}

impl PolyReason {
    /// The reason in English, at most 31 bytes. Takes no memory.
    #[tactic(auto, using(crate::proofs::TextLemmas::short_point_text))]
    pub fn text(self) -> &'static str
        ensures words { result.now ≡ point_text_words self }
        ensures short { length (point_text_words self) ≤ 31 }
    {
        match self {
            PolyReason::BadChar => "bad character",
            PolyReason::Cut => "number cut short",
            PolyReason::TooLong => "number too long",
            PolyReason::Padded => "padded number",
            PolyReason::Half => "latitude without longitude",
            PolyReason::Range => "coordinate out of range",
            PolyReason::TooMany => "too many points",
        }
    }

    // Makes the refusal of a text for this reason, at an offset in bytes from its start.
    pub(crate) fn at(self, offset: usize) -> PolyFault
        ensures { result ≡ PolyFault.At offset self }
    {
        PolyFault::At {
            offset,
            reason: self,
        }
    }
}

/// Why a text was not read.
#[derive(Clone, Copy, Debug, PartialEq, Eq, Error)]
pub enum PolyFault {
    /// No memory for a point.
    #[error("out of memory")]
    Memory,
    /// The text is refused.
    #[error("{reason} at {offset}")]
    At {
        /// The offset of the fault, in bytes from the start of the text.
        offset: usize,
        /// The reason.
        reason: PolyReason,
    },
}

// The fault to report for a growth that was refused.
impl From<AllocError> for PolyFault {
    ghost use Rattle.twkb_polyline.specs.declared.fault.PolyFault.TheVariants.{Memory};

    ghost from_gives = { λ _ fault. fault ≡ Memory };

    fn from(_: AllocError) -> PolyFault {
        PolyFault::Memory
    }
}
