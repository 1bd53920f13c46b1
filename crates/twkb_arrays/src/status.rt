//! The status of a call that had too little room.
ghost use Rattle.std.specs.Prelude.{◌≡◌};
ghost use Rattle.twkb_arrays.specs.Rows.{unless_full};

// This status, reason and place; or, if there was too little room (`full`), status 5 and 0 for the
// others.
pub(crate) fn unless_full(full: bool, outcome: (u32, u32, u64)) -> (u32, u32, u64)
    ensures { result ≡ unless_full full outcome }
{
    if full { (5, 0, 0) } else { outcome }
}
