//! Runs of bytes that only join a field.
ghost use Rattle.std.specs.Prelude.{◌≤◌, length, take};
ghost use Rattle.csv.specs.Machine.{Runs};
ghost use Rattle.twkb_csv.specs.Machine.{config, state_of};
ghost use Rattle.twkb_csv.specs.declared.machine.State.TheVariants.{InField, InQuoted};

use memchr::{memchr, memchr3};

// The number of bytes, from the first on, that only join a field without quotes.
#[inline(always)]
pub(crate) fn plain_length(bytes: &[u8], delimiter: u8) -> usize
    ensures within { result ≤ length bytes.now }
    ensures joins { Runs (config delimiter) (state_of InField) (take result bytes.now) }
{
    match memchr3(delimiter, b'\r', b'\n', bytes) {
        Some(count) => count,
        None => bytes.len(),
    }
}

// The number of bytes, from the first on, that only join a field between its quotes.
#[inline(always)]
pub(crate) fn quoted_length(bytes: &[u8], delimiter: u8) -> usize
    ensures within { result ≤ length bytes.now }
    ensures joins { Runs (config delimiter) (state_of InQuoted) (take result bytes.now) }
{
    let _any = delimiter;
    match memchr(b'"', bytes) {
        Some(count) => count,
        None => bytes.len(),
    }
}
