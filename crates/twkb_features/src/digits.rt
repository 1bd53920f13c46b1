//! Runs of decimal digits, read one at a time.
ghost use Rattle.std.specs.Prelude.{◌≡◌, ◌≤◌, ◌<◌, ◌+◌, ◌-◌, ◌*◌, ◌^◌, length, slice_range};
ghost use Rattle.std.specs.Str.Parse.{digits_value};
ghost use Rattle.std.specs.Float.Numeral.{digits_end};

// Reads the digits at `from` of a text of at most 18 characters. Returns where they end, and the
// number of `so_far` with them appended.
#[inline(always)]
pub(crate) fn read_digits(text: &[u8], from: usize, so_far: u64) -> (usize, u64)
    requires short { length text.now ≤ 18 }
    requires within { from ≤ length text.now }
    requires few { so_far < 10 ^ from }
    ensures end { result.0 ≡ digits_end text.now from }
    ensures after { from ≤ result.0 }
    ensures within { result.0 ≤ length text.now }
    ensures value { result.1
        ≡ so_far * 10 ^ (result.0 - from) + digits_value 10 (slice_range text.now from result.0) }
    ensures few { result.1 < 10 ^ result.0 }
{
    let mut at = from;
    let mut value = so_far;
    while at < text.len() {
        let digit = u64::from(text[at]).wrapping_sub(48);
        if digit > 9 {
            break;
        }
        value = value * 10 + digit;
        at += 1;
    }
    (at, value)
}
