//! Why words are refused that `clap` accepts one by one.
ghost use Rattle.std.specs.Prelude.{◌≡◌};
ghost use Rattle.twkb_command.specs.Misuses.{id_of, is_flag, shown_of};

/// An option that goes with another one.
#[derive(Clone, Copy, PartialEq, Eq, Debug)]
pub enum Word {
    /// `--column`, the name of a column.
    Column,
    /// `--precision`, the decimals of its points.
    Precision,
    /// `--ids`, the name of a column of ids.
    Ids,
    /// `--hex`, which has no value.
    Hex,
    /// `--hex=bare`, a flag of its own.
    HexBare,
    /// `--null`, a word for a missing value.
    Null,
    /// `--delimiter`, the character between two fields.
    Delimiter,
    /// `--geojson`, which has no value.
    Geojson,
    /// `--collection`, which has no value.
    Collection,
}

impl Word {
    // The option's id for `clap`.
    pub(crate) fn id(self) -> &'static str
        ensures { result.now ≡ id_of self }
    {
        match self {
            Word::Column => "column",
            Word::Precision => "precision",
            Word::Ids => "ids",
            Word::Hex => "hex",
            Word::HexBare => "hex-bare",
            Word::Null => "null",
            Word::Delimiter => "delimiter",
            Word::Geojson => "geojson",
            Word::Collection => "collection",
        }
    }

    // Whether the option has no value.
    pub(crate) fn is_flag(self) -> bool
        ensures { result ≡ is_flag self }
    {
        matches!(
            self,
            Word::Hex | Word::HexBare | Word::Geojson | Word::Collection
        )
    }

    // The option as refusals show it.
    pub(crate) fn shown(self) -> &'static str
        ensures { result.now ≡ shown_of self }
    {
        match self {
            Word::Column => "--column <NAME>",
            Word::Precision => "--precision <-8 to 7>",
            Word::Ids => "--ids <KEY>",
            Word::Hex => "--hex",
            Word::HexBare => "--hex=bare",
            Word::Null => "--null <WORD>",
            Word::Delimiter => "--delimiter <C>",
            Word::Geojson => "--geojson",
            Word::Collection => "--collection",
        }
    }
}

/// Why words are refused that `clap` accepts one by one, in the order of the checks.
#[derive(Clone, Copy, PartialEq, Eq, Debug)]
pub enum Misuse {
    /// The first option is given, and the second one, which it needs, is not.
    Without(Word, Word),
    /// Both options are given, which exclude each other.
    With(Word, Word),
    /// The value of `--delimiter` is neither `tab`, `\t`, nor one ASCII character other than a
    /// quotation mark, CR and LF.
    NoDelimiter,
}
