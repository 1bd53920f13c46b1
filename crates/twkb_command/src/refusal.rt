//! Answers for words that ask for no conversion.
use crate::misuse::Misuse;

/// Why words ask for no conversion.
#[derive(PartialEq, Eq, Debug, Drop)]
pub enum Refusal {
    /// Memory was refused, for reading the words or for the text of another refusal.
    Memory,
    /// Help was asked for, with this text.
    Help(String),
    /// The version was asked for, with this text.
    Version(String),
    /// The words are refused, for the reason in this text.
    Usage(String),
    /// The words are refused: each is one of the command line, but they do not go together.
    Misused(Misuse),
}
