//! Signed numbers as unsigned ones, by zigzag.
ghost use Rattle.std.specs.Prelude.{◌≡◌};
ghost use Rattle.twkb_num.specs.Spelling.{zigzag_of};

/// The zigzag form of a number n: 2n from 0 up, and -2n - 1 below, so that numbers near 0 have
/// small forms (TWKB specification; Encoded Polyline Algorithm Format). Takes no memory.
pub fn zigzag(number: i64) -> u64
    ensures { result ≡ zigzag_of number }
{
    let doubled = number.cast_unsigned() << 1;
    if number < 0 { !doubled } else { doubled }
}

/// The number whose zigzag form is `form`; each number of 64 bits is the form of exactly one. Takes
/// no memory.
pub fn unzigzag(form: u64) -> i64
    ensures { zigzag_of result ≡ form }
{
    let half = (form >> 1).cast_signed();
    if form & 1 == 1 { !half } else { half }
}
