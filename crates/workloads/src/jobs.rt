//! The jobs, each of one seed and of some size.

use crate::digest::Digest;
use crate::pool::{Drawing, Pool};
use crate::random::Random;
use crate::reading::{read_rows, read_table, read_trees};
use crate::rows::Writing;
use crate::runs::{Source, blobs_of, list_drawn, pack_drawn, rows_of};
use crate::serving::{feed_peers, make_calls};
use crate::shapes::{Maker, Shape};
use std::alloc::{AllocError, Global};
use twkb_convert::{Style, Tap};
use twkb_table::header_text;

// A record that is refused, and a blob.
const BAD_ROW: &[u8] = b"0,pont,,5,\n";

const BAD_BLOB: &[u8] = b"\x08\x00";

// How many peers send at once.
const PEERS: u32 = 300;

/// A seed and a size: how many geometries are drawn goes with it, of each kind as many as take about as long.
#[derive(Clone, Copy)]
pub(crate) struct Job {
    pub(crate) alloc: Global,
    pub(crate) seed: u64,
    pub(crate) size: u32,
}

// Geometries of a kind, so many of which are drawn for each unit of a job's size.
fn drawn(shape: Shape, writing: Writing, made: u32, drawn: u32) -> Source {
    Source {
        shape,
        writing,
        made,
        drawn,
    }
}

impl Job {
    // The same kind of input, as large as the job is.
    fn sized(self, source: Source) -> Source {
        Source {
            drawn: source.drawn.saturating_mul(self.size),
            ..source
        }
    }

    // What draws for a part of a job.
    fn random(self, part: u64) -> Random {
        Random::new(self.seed.wrapping_add(part << 32))
    }

    // Packs a table of a kind of input.
    fn pack_one(self, source: Source, digest: &mut Digest) -> Result<(), AllocError> {
        let pool = rows_of(self.alloc, self.seed, source)?;
        pack_drawn(
            self.alloc,
            &pool,
            self.random(1),
            self.sized(source),
            &[],
            digest,
        )
    }

    // Unpacks or shows two streams of a kind of input, one in each style.
    fn list_both(
        self,
        command: &str,
        source: Source,
        digest: &mut Digest,
    ) -> Result<(), AllocError> {
        let alloc = self.alloc;
        let rows = rows_of(alloc, self.seed, source)?;
        let full = rows.packed(alloc, Style::Full)?;
        list_drawn(
            alloc,
            command,
            &full,
            self.random(2),
            self.sized(source),
            &[],
            digest,
        )?;
        let plain = rows.packed(alloc, Style::Plain)?;
        list_drawn(
            alloc,
            command,
            &plain,
            self.random(3),
            self.sized(source),
            &[],
            digest,
        )
    }

    /// Dumps of stops, tracks and parcels, and stops in quoted fields with CRLF.
    pub(crate) fn pack(self, digest: &mut Digest) -> Result<(), AllocError> {
        self.pack_one(drawn(Shape::Stop, Writing::Bare, 4000, 660), digest)?;
        self.pack_one(drawn(Shape::Stop, Writing::Quoted, 4000, 660), digest)?;
        self.pack_one(drawn(Shape::Track, Writing::Bare, 300, 29), digest)?;
        self.pack_one(drawn(Shape::Parcel, Writing::Quoted, 600, 26), digest)
    }

    // Streams of stops, tracks and parcels, in the full style and in the plain one.
    fn list(self, command: &str, digest: &mut Digest) -> Result<(), AllocError> {
        self.list_both(
            command,
            drawn(Shape::Stop, Writing::Bare, 4000, 4000),
            digest,
        )?;
        self.list_both(command, drawn(Shape::Track, Writing::Bare, 300, 26), digest)?;
        self.list_both(
            command,
            drawn(Shape::Parcel, Writing::Bare, 600, 21),
            digest,
        )
    }

    /// Tables of streams.
    pub(crate) fn unpack(self, digest: &mut Digest) -> Result<(), AllocError> {
        self.list("unpack", digest)
    }

    /// Lines of streams.
    pub(crate) fn show(self, digest: &mut Digest) -> Result<(), AllocError> {
        self.list("show", digest)
    }

    // The blobs of stops, short lines and parcels, one behind the other.
    fn mixed_blobs(self) -> Result<Pool, AllocError> {
        let mut pool = Pool::new(self.alloc);
        let stops = drawn(Shape::Stop, Writing::Bare, 2000, 0);
        pool.append(&blobs_of(self.alloc, self.seed, stops, Style::Full)?)?;
        let lines = drawn(Shape::Short, Writing::Bare, 2000, 0);
        pool.append(&blobs_of(self.alloc, self.seed, lines, Style::Plain)?)?;
        let parcels = drawn(Shape::Parcel, Writing::Bare, 300, 0);
        pool.append(&blobs_of(self.alloc, self.seed, parcels, Style::Full)?)?;
        Ok(pool)
    }

    /// Pieces from many peers, and small calls from buffer to buffer.
    pub(crate) fn serve(self, digest: &mut Digest) -> Result<(), AllocError> {
        let pool = self.mixed_blobs()?;
        feed_peers(self.alloc, &pool, self.seed, PEERS, self.size / 6, digest)?;
        make_calls(self.alloc, self.seed, self.size.saturating_mul(600), digest)
    }

    /// Rows and trees of blobs, and rows of tables.
    pub(crate) fn read(self, digest: &mut Digest) -> Result<(), AllocError> {
        let blobs = self.mixed_blobs()?;
        let source = self.sized(drawn(Shape::Short, Writing::Bare, 3000, 350));
        let mut listed = Tap::new(Drawing::new(&[], &blobs, self.random(3), source.drawn));
        read_rows(self.alloc, &mut listed, digest)?;
        let mut grown = Tap::new(Drawing::new(&[], &blobs, self.random(4), source.drawn));
        read_trees(self.alloc, &mut grown, digest)?;
        let rows = rows_of(self.alloc, self.seed, source)?;
        let table = Drawing::new(header_text(), &rows, self.random(5), source.drawn);
        read_table(self.alloc, &mut Tap::new(table), digest)
    }

    // Packs, unpacks and shows a kind of input, behind which something is refused.
    fn convert_refused(self, source: Source, digest: &mut Digest) -> Result<(), AllocError> {
        let alloc = self.alloc;
        let sized = self.sized(source);
        let rows = rows_of(alloc, self.seed, source)?;
        pack_drawn(alloc, &rows, self.random(6), sized, BAD_ROW, digest)?;
        let blobs = rows.packed(alloc, Style::Full)?;
        list_drawn(
            alloc,
            "unpack",
            &blobs,
            self.random(7),
            sized,
            BAD_BLOB,
            digest,
        )?;
        list_drawn(
            alloc,
            "show",
            &blobs,
            self.random(8),
            sized,
            BAD_BLOB,
            digest,
        )
    }

    // Packs, unpacks and shows one long line.
    fn convert_long(self, digest: &mut Digest) -> Result<(), AllocError> {
        let mut rows = Pool::new(self.alloc);
        let mut maker = Maker::new(self.alloc, self.seed, Writing::Bare);
        maker.make_long(rows.bytes(), self.size.saturating_mul(2000))?;
        rows.end_piece()?;
        let one = drawn(Shape::Track, Writing::Bare, 1, 1);
        pack_drawn(self.alloc, &rows, self.random(9), one, &[], digest)?;
        let blobs = rows.packed(self.alloc, Style::Plain)?;
        list_drawn(
            self.alloc,
            "unpack",
            &blobs,
            self.random(10),
            one,
            &[],
            digest,
        )
    }

    /// Nested collections, multipoints with long ids, far coordinates, padded counts, one long line.
    pub(crate) fn awkward(self, digest: &mut Digest) -> Result<(), AllocError> {
        self.convert_refused(drawn(Shape::Nest, Writing::Bare, 1000, 5), digest)?;
        self.convert_refused(drawn(Shape::Tagged, Writing::Bare, 1000, 8), digest)?;
        self.convert_refused(drawn(Shape::Far, Writing::Bare, 1000, 10), digest)?;
        let lines = drawn(Shape::Short, Writing::Bare, 1000, 10);
        let plain = blobs_of(self.alloc, self.seed, lines, Style::Plain)?;
        let padded = plain.padded(self.alloc)?;
        list_drawn(
            self.alloc,
            "unpack",
            &padded,
            self.random(11),
            self.sized(lines),
            &[],
            digest,
        )?;
        self.convert_long(digest)
    }
}
