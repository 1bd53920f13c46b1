//! The lengths of numbers, known before they are written.
ghost use Rattle.std.specs.Prelude.{◌≡◌, ◌≤◌};
ghost use Rattle.twkb_writer.specs.Totals.{number_len, signed_len};

use twkb_num::{varint_len, zigzag};

// The number of bytes of a number's shortest varint, at most 10.
#[tactic(auto, unfolding(crate::specs::Totals::number_len))]
#[inline(always)]
pub(crate) fn number_len(number: u64) -> u64
    ensures value { result ≡ number_len number }
    ensures most { result ≤ 10 }
{
    varint_len(number) as u64
}

// The number of bytes of the shortest varint of a signed number's zigzag form, at most 10.
#[inline(always)]
pub(crate) fn signed_len(number: i64) -> u64
    ensures value { result ≡ signed_len number }
    ensures most { result ≤ 10 }
{
    number_len(zigzag(number))
}
