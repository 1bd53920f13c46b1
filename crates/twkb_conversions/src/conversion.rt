//! The conversions: a table of them, and all in one call, over any reader and writer.
ghost use Rattle.std.specs.Prelude.{◌≡◌, is_some};
ghost use Rattle.twkb_conversions.specs.Conversions.{Converts, conversion_at, in_style, name_of, style_of};

use std::alloc::Global;
use std::io::{Read, Write};
use twkb_convert::{
    ConvertFault, Limits, Report, Style, Tap, headers, pack_styled, show, unpack, unpack_geojson,
};

/// A conversion of a table or of a stream.
#[derive(Clone, Copy, PartialEq, Eq, Debug)]
pub enum Conversion {
    /// Packs a table into a stream, in a style.
    Pack(Style),
    /// Unpacks a stream into a table.
    Unpack,
    /// Shows a stream as lines of its headers.
    Show,
    /// Unpacks a stream into lines of GeoJSON, one for each geometry.
    Geojson,
    /// Lists the headers of a stream in C's layout.
    Headers,
}

/// Each conversion once, in the order of help. Its place is its number for C, Python and JavaScript,
/// so a new one comes last.
pub const CONVERSIONS: [Conversion; 5] = [
    Conversion::Pack(Style::Full),
    Conversion::Unpack,
    Conversion::Show,
    Conversion::Geojson,
    Conversion::Headers,
];

/// What a conversion is called, and what it does.
#[derive(Clone, Copy, PartialEq, Eq, Debug)]
pub struct Words {
    /// Its name: that of the subcommand, if it is one.
    pub name: &'static str,
    /// What it does.
    pub about: &'static str,
}

impl Conversion {
    /// Its name, and what it does.
    pub fn words(self) -> Words
        ensures { result.name.now ≡ name_of self }
    {
        match self {
            Conversion::Pack(_) => Words {
                name: "pack",
                about: "Reads a table and writes a stream of blobs, one for each geometry",
            },
            Conversion::Unpack => Words {
                name: "unpack",
                about: "Reads a stream of blobs and writes a table, the header line first",
            },
            Conversion::Show => Words {
                name: "show",
                about: "Reads a stream of blobs and writes a line for each TWKB header in it",
            },
            Conversion::Geojson => Words {
                name: "geojson",
                about: "Reads a stream of blobs and writes a line of GeoJSON for each geometry",
            },
            Conversion::Headers => Words {
                name: "headers",
                about: "Reads a stream of blobs and writes 32 bytes for each TWKB header in it",
            },
        }
    }

    /// Whether it has a style.
    pub fn has_style(self) -> bool
        ensures { result ≡ is_some (style_of self) }
    {
        matches!(self, Conversion::Pack(_))
    }

    /// The same conversion in this style, if it has one.
    pub fn in_style(self, style: Style) -> Conversion
        ensures { result ≡ in_style style self }
    {
        match self {
            Conversion::Pack(_) => Conversion::Pack(style),
            other => other,
        }
    }

    /// The conversion with a number, in this style if it has one; `None` if no conversion has it.
    #[tactic(auto, using(crate::proofs::ConversionLemmas::place_is_number))]
    pub fn numbered(number: u32, style: Style) -> Option<Conversion>
        ensures { result ≡ conversion_at style number }
    {
        let what = CONVERSIONS.get(number as usize)?;
        Some(what.in_style(style))
    }
}

/// Converts all that a reader gives as the function for `what` does: `pack_styled`, `unpack`, `show`,
/// `unpack_geojson` or `headers`. The result and the memory that it takes are those of that function.
pub fn convert<R: Read, W: Write>(
    alloc: Global,
    what: Conversion,
    reader: &mut Tap<R>,
    writer: &mut Tap<W>,
    limits: Limits,
) -> Result<Report, ConvertFault>
    ensures { Converts what limits R.remaining W.contents reader.old writer.old reader.new writer.new result }
{
    match what {
        Conversion::Pack(style) => pack_styled(alloc, reader, writer, limits, style),
        Conversion::Unpack => unpack(alloc, reader, writer, limits),
        Conversion::Show => show(alloc, reader, writer, limits),
        Conversion::Geojson => unpack_geojson(alloc, reader, writer, limits),
        Conversion::Headers => headers(alloc, reader, writer, limits),
    }
}
