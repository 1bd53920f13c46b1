//! A server's work: pieces from many peers in turn, and a small blob a call.

use crate::digest::Digest;
use crate::pool::{Drawing, Pool};
use crate::random::Random;
use crate::reading::fold_rows;
use std::alloc::{AllocError, Global};
use std::io::Read;
use twkb_blob::Session;
use twkb_buffer::{BufferReport, Conversion, fill};
use twkb_geom::Limits;
use twkb_num::{Leb128, NumBuf, zigzag};

// How many bytes a peer sends at most at a time.
const PIECE: usize = 4096;

// How many bytes a call has for its answer.
const ROOM: usize = 4096;

// The type bytes of a point and of a line with five decimals, without anything that may follow (TWKB).
const POINT_HEADER: [u8; 2] = [0xa1, 0x00];

const LINE_HEADER: [u8; 2] = [0xa2, 0x00];

// Who sends blobs, and how far these are read.
#[derive(Drop)]
struct Peer<'a> {
    blobs: Drawing<'a>,
    session: Session,
}

// Feeds a session a piece, and takes each geometry that ends in it; false after a fault.
fn feed(session: &mut Session, piece: &[u8], digest: &mut Digest) -> bool {
    let mut rest = piece;
    for _ in 0..u64::MAX {
        if rest.is_empty() {
            return true;
        }
        match session.feed_flat(rest) {
            Ok((used, true)) => {
                rest = &rest[used..];
                fold_rows(session.flat(), digest);
            }
            Ok((used, false)) => rest = &rest[used..],
            Err(_) => return false,
        }
    }
    true
}

impl Peer<'_> {
    // Feeds the session what comes next, of 512 bytes up to a whole piece.
    fn step(&mut self, random: &mut Random, digest: &mut Digest) -> bool {
        let mut piece = [0u8; PIECE];
        let length = random.from(512, 3584) as usize;
        if length > PIECE {
            return false;
        }
        match self.blobs.read(&mut piece[..length]) {
            Ok(0) | Err(_) => false,
            Ok(count) => feed(&mut self.session, &piece[..count], digest),
        }
    }
}

/// Feeds so many sessions in turn, so many rounds, each the blobs of a pool at random.
pub(crate) fn feed_peers(
    alloc: Global,
    pool: &Pool,
    seed: u64,
    peers: u32,
    rounds: u32,
    digest: &mut Digest,
) -> Result<(), AllocError> {
    let mut random = Random::new(seed);
    let mut open = Vec::new(alloc);
    for _ in 0..peers {
        let blobs = Drawing::new(&[], pool, Random::new(random.next()), u32::MAX);
        let session = Session::new(alloc, Limits::standard());
        open.push(Peer { blobs, session })?;
    }
    for _ in 0..rounds {
        for peer in &mut open {
            let goes_on = peer.step(&mut random, digest);
            digest.fold(u64::from(goes_on));
        }
    }
    Ok(())
}

// Appends a number as TWKB spells it.
fn put_number(blob: &mut Vec<u8>, number: i64) -> Result<(), AllocError> {
    blob.extend_from_slice(NumBuf::put::<Leb128>(zigzag(number)).as_slice())
}

// Makes a blob of one point, or of a line of some.
fn put_blob(blob: &mut Vec<u8>, random: &mut Random) -> Result<(), AllocError> {
    blob.clear();
    let more = random.below(8);
    if more > 0 {
        blob.extend_from_slice(&LINE_HEADER)?;
        blob.push(u8::try_from(more).unwrap_or(1).saturating_add(1))?;
    } else {
        blob.extend_from_slice(&POINT_HEADER)?;
    }
    put_number(blob, random.within(18_000_000))?;
    put_number(blob, random.within(9_000_000))?;
    for _ in 0..more {
        put_number(blob, random.within(300))?;
        put_number(blob, random.within(300))?;
    }
    Ok(())
}

// Takes what a call answered and wrote.
fn fold_call(report: &BufferReport, room: &[u8], digest: &mut Digest) {
    digest.fold(u64::from(report.status));
    digest.fold(report.sent);
    let sent = usize::try_from(report.sent).unwrap_or(0);
    if let Some(taken) = room.get(..sent) {
        digest.fold_bytes(taken);
    }
}

/// Converts a small blob so many times, to a table and to lines, each blob another one.
pub(crate) fn make_calls(
    alloc: Global,
    seed: u64,
    calls: u32,
    digest: &mut Digest,
) -> Result<(), AllocError> {
    let limits = Limits::standard();
    let mut random = Random::new(seed);
    let mut room = [0u8; ROOM];
    let mut blob = Vec::new(alloc);
    for _ in 0..calls {
        put_blob(&mut blob, &mut random)?;
        let listed = fill(alloc, Conversion::Unpack, &blob, &mut room, limits);
        fold_call(&listed, &room, digest);
        put_blob(&mut blob, &mut random)?;
        let shown = fill(alloc, Conversion::Show, &blob, &mut room, limits);
        fold_call(&shown, &room, digest);
    }
    Ok(())
}
