//! Samples of rounding, checked by computation: doubles, and coordinates from outside.
ghost use Rattle.twkb_buffer.specs.Samples.{AreRounded, large_doubles, other_doubles, written_halves};

/// The doubles of `specs/Samples.antt` are rounded, at the precision beside each, to the coordinate
/// beside it.
pub fn doubles()
    ensures halves { AreRounded written_halves }
    ensures others { AreRounded other_doubles }
    ensures large { AreRounded large_doubles }
{}
