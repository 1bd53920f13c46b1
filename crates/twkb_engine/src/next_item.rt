//! The item that comes next.
ghost use Rattle.std.specs.Prelude.{◌≡◌, ◌↔◌, IsTrue};
ghost use Rattle.twkb_engine.specs.Fits.{IsByte, first_item, header_item};

use twkb_tree::Kind;

// The item that comes next (TWKB, in the order of a geometry's bytes).
#[derive(Clone, Copy, Debug, PartialEq, Eq)]
pub(crate) enum NextItem {
    // A type byte: a blob begins, or a member of a collection.
    TypeByte,
    // The metadata byte after it.
    MetadataByte,
    // The extended dimensions byte.
    ExtendedByte,
    // The size.
    Size,
    // A number of the box, with `left` more after it.
    BoxNumber { left: u8 },
    // The count of members of a multi-geometry or a collection.
    MemberCount,
    // An id of a member.
    Id,
    // The first coordinate of a point.
    X,
    // The second coordinate of a point.
    Y,
    // The count of a line's or ring's points.
    PointCount,
    // The count of a polygon's rings.
    RingCount,
}

impl NextItem {
    // Whether the item is a single byte: a type, metadata or extended byte, and not a varint.
    #[inline(always)]
    pub(crate) fn is_byte(self) -> bool
        ensures { IsTrue result ↔ IsByte self }
    {
        matches!(
            self,
            NextItem::TypeByte | NextItem::MetadataByte | NextItem::ExtendedByte
        )
    }

    // The item after the header of a geometry of this kind that has a body: the x of a point, the
    // count of a linestring's points or a polygon's rings, else the count of members.
    #[inline(always)]
    pub(crate) fn after_header(kind: Kind) -> NextItem
        ensures { result ≡ header_item kind }
    {
        match kind {
            Kind::Point => NextItem::X,
            Kind::Linestring => NextItem::PointCount,
            Kind::Polygon => NextItem::RingCount,
            _ => NextItem::MemberCount,
        }
    }

    // The first item of the body of this kind: of a multi-geometry or a collection, the first item
    // of a member; of a ring, the count of its points.
    #[inline(always)]
    pub(crate) fn first_of(kind: Kind) -> NextItem
        ensures { result ≡ first_item kind }
    {
        match kind {
            Kind::Point | Kind::MultiPoint => NextItem::X,
            Kind::Linestring | Kind::MultiLinestring | Kind::Ring => NextItem::PointCount,
            Kind::Polygon | Kind::MultiPolygon => NextItem::RingCount,
            Kind::Collection => NextItem::TypeByte,
        }
    }
}
