//! Runs of the command, over devices of the program's own.

use crate::digest::Digest;
use crate::pool::{Drawing, Pool};
use crate::random::Random;
use crate::rows::Writing;
use crate::shapes::{Maker, Shape};
use std::alloc::{AllocError, Global};
use std::io::BufWriter;
use twkb_command::run;
use twkb_convert::{Style, Tap};
use twkb_table::header_text;

/// How a stream of a pool's geometries is made.
#[derive(Clone, Copy)]
pub(crate) struct Source {
    pub(crate) shape: Shape,
    pub(crate) writing: Writing,
    /// How many geometries are made.
    pub(crate) made: u32,
    /// How many are drawn of these.
    pub(crate) drawn: u32,
}

/// The rows of so many geometries of a kind.
pub(crate) fn rows_of(alloc: Global, seed: u64, source: Source) -> Result<Pool, AllocError> {
    let mut pool = Pool::new(alloc);
    let mut maker = Maker::new(alloc, seed, source.writing);
    for _ in 0..source.made {
        maker.make(pool.bytes(), source.shape)?;
        pool.end_piece()?;
    }
    Ok(pool)
}

/// The blobs of so many geometries of a kind, in a style.
pub(crate) fn blobs_of(
    alloc: Global,
    seed: u64,
    source: Source,
    style: Style,
) -> Result<Pool, AllocError> {
    let rows = rows_of(alloc, seed, source)?;
    rows.packed(alloc, style)
}

// Runs the command, whose output goes through a buffer, as it does to standard output.
fn run_with(
    alloc: Global,
    command: &str,
    input: Drawing<'_>,
    digest: &mut Digest,
) -> Result<(), AllocError> {
    let mut words = Vec::new(alloc);
    words.push(String::from_str(alloc, "polytwkb")?)?;
    words.push(String::from_str(alloc, command)?)?;
    let mut reader = Tap::new(input);
    let mut told = Tap::new(Digest::new());
    let mut taken = Digest::new();
    let status = match BufWriter::new(alloc, &mut taken) {
        Ok(buffered) => {
            let mut writer = Tap::new(buffered);
            run(alloc, &words, &mut reader, &mut writer, &mut told)
        }
        Err(_) => return Err(AllocError),
    };
    digest.fold(u64::from(status));
    digest.fold(taken.value());
    digest.fold(told.into_inner().value());
    Ok(())
}

/// Packs a table of so many rows of a pool, behind which these bytes stand.
pub(crate) fn pack_drawn(
    alloc: Global,
    pool: &Pool,
    random: Random,
    source: Source,
    end: &[u8],
    digest: &mut Digest,
) -> Result<(), AllocError> {
    let table = Drawing::new(header_text(), pool, random, source.drawn).ending(end);
    run_with(alloc, "pack", table, digest)
}

/// Unpacks or shows a stream of so many blobs of a pool, behind which these bytes stand.
pub(crate) fn list_drawn(
    alloc: Global,
    command: &str,
    pool: &Pool,
    random: Random,
    source: Source,
    end: &[u8],
    digest: &mut Digest,
) -> Result<(), AllocError> {
    let stream = Drawing::new(&[], pool, random, source.drawn).ending(end);
    run_with(alloc, command, stream, digest)
}
