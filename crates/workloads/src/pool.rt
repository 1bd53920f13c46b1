//! Some thousand geometries that are made once, as rows of tables or as blobs, and drawn again at random.

ghost use Rattle.std.specs.Prelude.{◌≡◌, ◌≤◌, length};

use crate::random::Random;
use std::alloc::{AllocError, Global};
use std::io;
use std::io::Read;
use twkb_blob::{Style, measure_flat, write_flat};
use twkb_geom::{Flat, Limits, Work};
use twkb_io::{Bytes, Tap};
use twkb_table::{TableReader, header_text};

/// Pieces of bytes, one behind the other.
#[derive(Drop)]
pub(crate) struct Pool {
    bytes: Vec<u8>,
    ends: Vec<usize>,
}

impl Pool {
    /// No pieces.
    pub(crate) fn new(alloc: Global) -> Pool {
        Pool {
            bytes: Vec::new(alloc),
            ends: Vec::new(alloc),
        }
    }

    /// The bytes, to append a piece to.
    pub(crate) fn bytes(&mut self) -> &mut Vec<u8> {
        &mut self.bytes
    }

    /// Ends a piece where the bytes end.
    pub(crate) fn end_piece(&mut self) -> Result<(), AllocError> {
        self.ends.push(self.bytes.len())?;
        Ok(())
    }

    /// How many pieces there are.
    pub(crate) fn len(&self) -> u32 {
        u32::try_from(self.ends.len()).unwrap_or(0)
    }

    /// A piece by its place; none where there is no such place.
    pub(crate) fn piece(&self, place: u32) -> &[u8] {
        let start = match place.checked_sub(1) {
            Some(before) => self.ends.get(before as usize).copied().unwrap_or(0),
            None => 0,
        };
        let end = self.ends.get(place as usize).copied().unwrap_or(start);
        self.bytes.get(start..end).unwrap_or(&[])
    }

    /// Appends the pieces of another pool.
    pub(crate) fn append(&mut self, other: &Pool) -> Result<(), AllocError> {
        for place in 0..other.len() {
            self.bytes.extend_from_slice(other.piece(place))?;
            self.end_piece()?;
        }
        Ok(())
    }

    /// These blobs, whose third byte is a count below 128, with this count in two bytes.
    pub(crate) fn padded(&self, alloc: Global) -> Result<Pool, AllocError> {
        let mut padded = Pool::new(alloc);
        for place in 0..self.len() {
            if let [first, second, count, rest @ ..] = self.piece(place) {
                padded
                    .bytes
                    .extend_from_slice(&[*first, *second, *count | 0x80, 0])?;
                padded.bytes.extend_from_slice(rest)?;
            }
            padded.end_piece()?;
        }
        Ok(padded)
    }

    /// The blobs of pieces that are rows of geometries, in a style.
    pub(crate) fn packed(&self, alloc: Global, style: Style) -> Result<Pool, AllocError> {
        let mut table = Vec::from_slice(alloc, header_text())?;
        table.extend_from_slice(&self.bytes)?;
        pack_each(alloc, &mut Tap::new(table.as_slice()), style)
    }
}

// Appends the blob of a geometry.
fn put_blob(alloc: Global, flat: &Flat, style: Style, blobs: &mut Pool) -> Result<(), AllocError> {
    let mut work = Work::new();
    let mut sink = Bytes::new(alloc);
    let sizes = measure_flat(alloc, flat, style, &mut work)?;
    write_flat(flat, style, &sizes, &mut sink, &mut work)?;
    blobs.bytes.extend_from_slice(&sink.into_vec())?;
    blobs.end_piece()
}

// The blobs of a table's geometries, up to its end.
fn pack_each<R: Read>(alloc: Global, tap: &mut Tap<R>, style: Style) -> Result<Pool, AllocError> {
    let mut blobs = Pool::new(alloc);
    let mut reader = TableReader::new(alloc, tap, Limits::standard());
    let mut flat = Flat::new(alloc);
    for _ in 0..u64::MAX {
        if reader.next_flat(&mut flat) != Ok(true) {
            break;
        }
        put_blob(alloc, &flat, style, &mut blobs)?;
    }
    Ok(blobs)
}

/// A reader that gives a front, so many pieces of a pool at random, and an end.
#[derive(Drop)]
pub(crate) struct Drawing<'a> {
    rest: &'a [u8],
    pool: &'a Pool,
    random: Random,
    left: u32,
    end: &'a [u8],
}

impl<'a> Drawing<'a> {
    /// A reader before its first byte.
    pub(crate) fn new(front: &'a [u8], pool: &'a Pool, random: Random, left: u32) -> Drawing<'a> {
        Drawing {
            rest: front,
            pool,
            random,
            left,
            end: &[],
        }
    }

    /// The same reader with these bytes as its end.
    pub(crate) fn ending(self, end: &'a [u8]) -> Drawing<'a> {
        Drawing {
            rest: self.rest,
            pool: self.pool,
            random: self.random,
            left: self.left,
            end,
        }
    }

    /// A piece at random, the end, or nothing.
    fn draw(&mut self) -> &'a [u8] {
        if self.left > 0 {
            self.left -= 1;
            let place = self.random.below(self.pool.len());
            return self.pool.piece(place);
        }
        let end = self.end;
        self.end = &[];
        end
    }
}

// Copies as many bytes as there are and as fit into the front of a slice, and answers how many.
fn copy_front(from: &[u8], to: &mut [u8]) -> usize
    ensures given { result ≤ length from.now }
    ensures fits { result ≤ length to.old }
    ensures same { length to.new ≡ length to.old }
{
    let count = from.len().min(to.len());
    to[..count].copy_from_slice(&from[..count]);
    count
}

impl Read for Drawing<'_> {
    fn read(&mut self, buf: &mut [u8]) -> io::Result<usize> {
        let mut filled = 0usize;
        for _ in 0..u64::MAX {
            if filled >= buf.len() {
                break;
            }
            if self.rest.is_empty() {
                self.rest = self.draw();
            }
            if self.rest.is_empty() {
                break;
            }
            let count = copy_front(self.rest, &mut buf[filled..]);
            self.rest = &self.rest[count..];
            filled += count;
        }
        // the minimum tells the proof that no more was filled than there is room
        Ok(filled.min(buf.len()))
    }
}
