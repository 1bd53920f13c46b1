//! Requests, and the limits and the style that options give.
ghost use Rattle.std.specs.Prelude.{◌≡◌, ◌≤◌, ◌↔◌, IfSome, IsSome, codes};
ghost use Rattle.twkb_tree.specs.declared.limits.TheConstants.{NEST_CAP};
ghost use Rattle.twkb_tree.specs.Limits.{standard_limits};
ghost use Rattle.twkb_command.specs.CommandLine.{IsColumnOf, name_in};

use twkb_column::Column;
use twkb_conversions::Conversion;
use twkb_convert::Style;
use twkb_tree::Limits;

/// What is asked for of a column of a CSV.
#[derive(PartialEq, Eq, Debug, Drop)]
pub struct ColumnWords<'a> {
    /// The style of the blobs.
    pub style: Style,
    /// The name of the column.
    pub name: &'a str,
    /// Decimals of the coordinates, -8 to 7.
    pub precision: i8,
    /// The name of a column of ids, if the lines of the column are those of one multilinestring.
    pub ids: Option<&'a str>,
    /// The words for a missing value.
    pub nulls: Vec<&'a [u8]>,
    /// The byte between two fields.
    pub delimiter: u8,
}

// The bytes of a name, if there is one.
fn name_bytes(name: Option<&str>) -> Option<&[u8]>
    ensures { name_in result ≡ name_in name.entry }
{
    match name {
        Some(name) => Some(name.as_bytes()),
        None => None,
    }
}

impl ColumnWords<'_> {
    // The column, and how its CSV is read.
    pub(crate) fn column(&self) -> Column<'_>
        ensures { IsColumnOf self.now result }
    {
        Column {
            name: self.name.as_bytes(),
            ids: name_bytes(self.ids),
            precision: self.precision,
            nulls: &self.nulls,
            delimiter: self.delimiter,
        }
    }
}

/// What is to be done with the input.
#[derive(PartialEq, Eq, Debug, Drop)]
pub enum Job<'a> {
    /// A conversion.
    Convert(Conversion),
    /// Packing a column of a CSV.
    PackColumn(ColumnWords<'a>),
    /// Writing a CSV again with digits of blobs in its column, bare or after `\x`.
    PackHex(ColumnWords<'a>, bool),
    /// Unpacking to one FeatureCollection of GeoJSON.
    UnpackCollection,
    /// Unpacking to a CSV of one column with this name, whose fields this byte is between.
    UnpackColumn(&'a str, u8),
    /// Writing a CSV again with polylines in place of the digits in the column with this name, whose
    /// fields this byte is between.
    UnpackHex(&'a str, u8),
}

/// What is asked for, its limits, and the names of its files.
#[derive(PartialEq, Eq, Debug, Drop)]
pub struct Request<'a> {
    pub job: Job<'a>,
    pub limits: Limits,
    /// The file to read; `None` for standard input.
    pub input: Option<&'a str>,
    /// The file to write; `None` for standard output.
    pub output: Option<&'a str>,
}

// The standard limits, but with this limit of nesting; `None` if it is above 32.
pub(crate) fn nested_limits(nest: u32) -> Option<Limits>
    ensures accepted { IsSome result ↔ (nest ≤ NEST_CAP) }
    ensures value { IfSome result (λ l. l ≡ record standard_limits { nest = nest }) }
{
    let standard = Limits::standard();
    Limits::try_new(nest, standard.nodes(), standard.points())
}

// The style with a name: plain for `plain`, full for any other.
pub(crate) fn style_named(name: &str) -> Style
    ensures { (result ≡ Style.Plain) ↔ (name.now ≡ codes "plain") }
{
    match name {
        "plain" => Style::Plain,
        _ => Style::Full,
    }
}
