//! Streams as one FeatureCollection of GeoJSON.
use crate::devices::{Ended, Failing, SOUND, account_of, cut_reader, cut_writer};
use example_callers::Account;
use std::alloc::Global;
use twkb_convert::{BlobReason, Cause, unpack_collection};
use twkb_geom::Limits;
use twkb_io::FuseEnd;

// The parts of the collection of a point and a line, by hand from RFC 7946 and the project's format.
const OPENING: &[u8] = b"{\"type\":\"FeatureCollection\",\"features\":[";

const FIRST: &[u8] = b"\n{\"type\":\"Feature\",\"properties\":{},\"geometry\":{\"type\":\"Point\",\
    \"coordinates\":[2,1]}}";

const SECOND: &[u8] =
    b",\n{\"type\":\"Feature\",\"properties\":{},\"geometry\":{\"type\":\"LineString\",\
    \"coordinates\":[[0.5,-0.5]]}}";

const CLOSING: &[u8] = b"\n]}\n";

// The stream of that point and that line, and the number of bytes of the point.
const TWO: &[u8] = b"\x01\x00\x04\x02\x22\x00\x01\x0A\x09";

const FIRST_BLOB: usize = 4;

// The numbers of bytes of the opening, with the first feature, with both, and with the closing.
const NO_FEATURE: usize = OPENING.len();

const ONE_FEATURE: usize = NO_FEATURE + FIRST.len();

const BOTH_FEATURES: usize = ONE_FEATURE + SECOND.len();

const WHOLE: usize = BOTH_FEATURES + CLOSING.len();

// Unpacks a stream over devices that pass one byte a call and fail in this way; the writer fills an
// empty room.
fn unpacked(alloc: Global, input: &[u8], failing: Failing, room: Vec<u8>) -> Ended {
    let mut reader = cut_reader(input, failing.given);
    let mut writer = cut_writer(room, failing);
    let limits = Limits::standard();
    let account = account_of(unpack_collection(alloc, &mut reader, &mut writer, limits));
    Ended {
        account,
        read: reader.given(),
        calls: writer.calls(),
        has_unflushed: writer.has_unflushed(),
        written: writer.into_inner().into_inner(),
    }
}

// Whether a text is what these parts are, one after another, as far as it goes.
fn is_front(text: &[u8], parts: &[&[u8]]) -> bool {
    let mut rest = text;
    for part in parts {
        if rest.len() <= part.len() {
            return part.starts_with(rest);
        }
        if !rest.starts_with(part) {
            return false;
        }
        rest = &rest[part.len()..];
    }
    rest.is_empty()
}

// Whether this many bytes of these parts were written, and the writing stopped for this cause.
fn is_told(found: &Ended, parts: &[&[u8]], done: u64, sent: usize, stopped: Option<Cause>) -> bool {
    let due = Account {
        done,
        sent: sent as u64,
        stopped,
    };
    found.account == due && found.written.len() == sent && is_front(found.written.as_slice(), parts)
}

// Whether a stream of no blob, of one and of two is a collection of as many features.
fn collections_are_whole(alloc: Global) -> bool {
    let none = unpacked(alloc, b"", SOUND, Vec::new(alloc));
    let one = unpacked(alloc, &TWO[..FIRST_BLOB], SOUND, Vec::new(alloc));
    let both = unpacked(alloc, TWO, SOUND, Vec::new(alloc));
    is_told(
        &none,
        &[OPENING, CLOSING],
        0,
        NO_FEATURE + CLOSING.len(),
        None,
    ) && is_told(
        &one,
        &[OPENING, FIRST, CLOSING],
        1,
        ONE_FEATURE + CLOSING.len(),
        None,
    ) && is_told(&both, &[OPENING, FIRST, SECOND, CLOSING], 2, WHOLE, None)
        && !none.has_unflushed
        && !both.has_unflushed
}

#[test]
fn a_stream_is_a_collection_with_a_feature_in_each_line(rt: HostRuntime) {
    assert!(rt; collections_are_whole(rt.alloc()));
}

// Whether a read that fails after this many bytes is told after the features of the whole blobs,
// without the closing.
fn read_is_told(alloc: Global, given: usize) -> bool {
    let failing = Failing {
        given: given as u64,
        ..SOUND
    };
    let found = unpacked(alloc, TWO, failing, Vec::new(alloc));
    let stopped = Some(Cause::ReadDevice);
    let parts = [OPENING, FIRST, SECOND];
    if given < FIRST_BLOB {
        is_told(&found, &parts, 0, NO_FEATURE, stopped)
    } else if given < TWO.len() {
        is_told(&found, &parts, 1, ONE_FEATURE, stopped)
    } else {
        is_told(&found, &parts, 2, BOTH_FEATURES, stopped)
    }
}

// Whether a write that fails after this many bytes, in the closing too, is told after these.
fn write_is_told(alloc: Global, taken: usize, end: FuseEnd) -> bool {
    let failing = Failing {
        taken: taken as u64,
        end,
        ..SOUND
    };
    let found = unpacked(alloc, TWO, failing, Vec::new(alloc));
    let done = if taken < ONE_FEATURE {
        0
    } else if taken < BOTH_FEATURES {
        1
    } else {
        2
    };
    let parts = [OPENING, FIRST, SECOND, CLOSING];
    is_told(&found, &parts, done, taken, Some(Cause::WriteDevice))
}

// Whether each read and each write that fails is told.
fn devices_are_told(alloc: Global) -> bool {
    let mut are_told = true;
    for given in 0..TWO.len() + 1 {
        are_told = are_told && read_is_told(alloc, given);
    }
    for taken in 0..WHOLE {
        are_told = are_told
            && write_is_told(alloc, taken, FuseEnd::Fail)
            && write_is_told(alloc, taken, FuseEnd::Zero);
    }
    are_told
}

#[test]
fn each_device_that_fails_is_told_after_whole_features_or_the_bytes_written(rt: HostRuntime) {
    assert!(rt; devices_are_told(rt.alloc()));
}

// Whether a blob of a type that there is not is told at its first byte, after the feature before it
// and without the closing.
fn refusal_is_told(alloc: Global) -> bool {
    let found = unpacked(alloc, b"\x01\x00\x04\x02\x08\x00", SOUND, Vec::new(alloc));
    let reason = BlobReason::BadType;
    let stopped = Some(Cause::Blob { offset: 4, reason });
    is_told(&found, &[OPENING, FIRST], 1, ONE_FEATURE, stopped)
}

#[test]
fn a_refused_blob_leaves_the_collection_open_after_the_features_before_it(rt: HostRuntime) {
    assert!(rt; refusal_is_told(rt.alloc()));
}

// Whether the collection is whole, or want of memory is told after whole features.
fn growths_are_told(alloc: Global) -> bool {
    let Ok(room) = Vec::with_capacity(alloc, WHOLE) else {
        return true;
    };
    let found = unpacked(alloc, TWO, SOUND, room);
    let parts = [OPENING, FIRST, SECOND, CLOSING];
    is_told(&found, &parts, 2, WHOLE, None)
        || is_told(&found, &parts, 0, NO_FEATURE, Some(Cause::Memory))
        || is_told(&found, &parts, 1, ONE_FEATURE, Some(Cause::Memory))
}

// Run with each growth refused in turn (`make hostile`) too.
#[test]
fn a_refused_growth_is_want_of_memory_after_whole_features(rt: HostRuntime) {
    assert!(rt; growths_are_told(rt.alloc()));
}
