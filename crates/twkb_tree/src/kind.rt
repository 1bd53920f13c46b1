//! Kinds of rows, and their words in a table.
ghost use Rattle.std.specs.Prelude.{◌≡◌, ◌≤◌, take};
ghost use Rattle.twkb_tree.specs.Kind.{word_of};

/// The kind of a row of a table: one of the seven shapes, or a ring of a polygon.
#[derive(Clone, Copy, Debug, PartialEq, Eq)]
pub enum Kind {
    /// One point, or an empty point.
    Point,
    /// Points in a line.
    Linestring,
    /// Rings.
    Polygon,
    /// The points of one ring of a polygon.
    Ring,
    /// Points, each in its own row.
    MultiPoint,
    /// Linestrings, each in its own row.
    MultiLinestring,
    /// Polygons, each in its own row.
    MultiPolygon,
    /// Geometries of any kind.
    Collection,
}

impl Kind {
    /// The kind's word in a table, in ASCII and padded with spaces to sixteen bytes, and the word's
    /// own length. Takes no memory.
    #[inline(always)]
    pub fn padded_name(self) -> (&'static [u8; 16], usize)
        ensures few { result.1 ≤ 15 }
        ensures word { take result.1 result.0.now ≡ word_of self }
    {
        match self {
            Kind::Point => (b"point           ", 5),
            Kind::Linestring => (b"linestring      ", 10),
            Kind::Polygon => (b"polygon         ", 7),
            Kind::Ring => (b"ring            ", 4),
            Kind::MultiPoint => (b"multipoint      ", 10),
            Kind::MultiLinestring => (b"multilinestring ", 15),
            Kind::MultiPolygon => (b"multipolygon    ", 12),
            Kind::Collection => (b"collection      ", 10),
        }
    }

    /// The kind's word in a table, as the bytes of a field. Takes no memory.
    #[inline(always)]
    pub fn word(self) -> &'static [u8]
        ensures { result.now ≡ word_of self }
    {
        let (padded, count) = self.padded_name();
        &padded[..count]
    }

    /// The kind's word in a table, as text. Takes no memory.
    pub fn name(self) -> &'static str
        ensures { result.now ≡ word_of self }
    {
        str::from_utf8(self.word()).unwrap()
    }
}
