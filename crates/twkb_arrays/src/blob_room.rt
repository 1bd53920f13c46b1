//! The canonical blob of a flat form, a point or a linestring, made in memory that is reused from
//! one to the next.
ghost use Rattle.std.specs.Prelude.{◌≡◌, ◌≤◌, OnOk, length};
ghost use Rattle.twkb_tree.specs.declared.limits.TheConstants.{POINTS_CAP};
ghost use Rattle.twkb_tree.specs.Tree.{Tree, IsPrecision, IsTree};
ghost use Rattle.twkb_tree.specs.Rows.{rows};
ghost use Rattle.twkb_grammar.specs.Written.{canonical_blob};
ghost use Rattle.twkb_writer.specs.Bytes.{one_line, one_point};
ghost use Rattle.twkb_arrays.specs.Rows.{points_of};

use crate::own_points::PointsInRange;
use std::alloc::{AllocError, Global};
use twkb_flat::{Flat, Work};
use twkb_io::Bytes;
use twkb_points::Pt;
use twkb_writer::{
    Depths, Piece, Sizes, Style, measure_into, write_line, write_point, write_through,
};

// Memory for one blob and for the sizes of its form.
#[derive(Drop)]
pub(crate) struct BlobRoom {
    depths: Depths,
    sizes: Sizes,
    piece: Piece,
    bytes: Bytes,
}

impl BlobRoom {
    ghost use Rattle.twkb_arrays.specs.SentBlobs.{blob_in};

    // Makes a room without a blob, which grows as blobs need it. Takes no memory.
    pub(crate) fn new(alloc: Global) -> BlobRoom {
        BlobRoom {
            depths: Depths::new(),
            sizes: Sizes::new(alloc),
            piece: Piece::new(),
            bytes: Bytes::new(alloc),
        }
    }

    // Makes the canonical blob, in a style, of a flat form that has the rows of one whole geometry;
    // `blob` then gives it in place of the one before. Takes memory; after an `Err` nothing is
    // known of what `blob` gives.
    #[inline(always)]
    pub(crate) fn make(&mut self, form: &Flat, style: Style) -> Result<(), AllocError>
        ensures { OnOk result ((g : Tree) → IsTree g → rows 0 g ≡ form.now
            → blob_in self.new ≡ canonical_blob style g) }
    {
        let mut work = Work::new();
        measure_into(form, style, &mut self.depths, &mut self.sizes, &mut work)?;
        self.bytes.clear();
        write_through(
            form,
            style,
            &self.sizes,
            &mut self.piece,
            &mut self.bytes,
            &mut work,
        )
    }

    // Makes the canonical blob, in a style, of a point that is not empty, with a precision from -8
    // to 7; `blob` then gives it in place of the one before. Takes memory; after an `Err` nothing
    // is known of what `blob` gives.
    #[inline(always)]
    pub(crate) fn make_point(
        &mut self,
        precision: i8,
        point: Pt,
        style: Style,
    ) -> Result<(), AllocError>
        ensures { OnOk result (IsPrecision precision
            → blob_in self.new ≡ canonical_blob style (one_point precision point)) }
    {
        let mut work = Work::new();
        self.bytes.clear();
        write_point(
            precision,
            point,
            style,
            &mut self.piece,
            &mut self.bytes,
            &mut work,
        )
    }

    // Makes the canonical blob, in a style, of the linestring of these points, which must be at
    // most 2^24, with a precision from -8 to 7; `blob` then gives it in place of the one before.
    // Takes memory; after an `Err` nothing is known of what `blob` gives.
    #[inline(always)]
    pub(crate) fn make_line(
        &mut self,
        precision: i8,
        points: &PointsInRange<'_>,
        style: Style,
    ) -> Result<(), AllocError>
        requires { length points.now.own.now ≤ POINTS_CAP }
        ensures { OnOk result (IsPrecision precision
            → blob_in self.new ≡ canonical_blob style (one_line precision (points_of points.now.own.now))) }
    {
        let mut work = Work::new();
        self.bytes.clear();
        write_line(
            precision,
            points,
            style,
            &mut self.piece,
            &mut self.bytes,
            &mut work,
        )
    }

    // The bytes of the blob that was made last; none before the first one. Nothing is known of them
    // if making a blob failed since.
    #[inline(always)]
    pub(crate) fn blob(&self) -> &[u8]
        ensures { result.now ≡ blob_in self.now }
    {
        self.bytes.as_slice()
    }
}
