//! Why something was not taken: memory was refused, or it is refused itself.
use std::alloc::{AllocError, AllocFailed};

/// Why something was not taken: memory was refused, or it is refused for an `R`.
#[derive(Clone, Copy, Debug, PartialEq, Eq)]
pub enum Stop<R> {
    /// A growth was refused.
    Memory,
    /// It is refused, for this reason.
    Refused(R),
}

impl<R> From<AllocError> for Stop<R> {
    ghost use Rattle.std.specs.Prelude.{◌≡◌};
    ghost use Rattle.twkb_flat.specs.declared.stop.Stop.TheVariants.{Memory};

    ghost from_gives = { λ e stop. stop ≡ Memory };

    fn from(_: AllocError) -> Stop<R> {
        Stop::Memory
    }
}

impl<R, T: Drop> From<AllocFailed<T>> for Stop<R> {
    ghost use Rattle.std.specs.Prelude.{◌≡◌};
    ghost use Rattle.twkb_flat.specs.declared.stop.Stop.TheVariants.{Memory};

    ghost from_gives = { λ e stop. stop ≡ Memory };

    fn from(_: AllocFailed<T>) -> Stop<R> {
        Stop::Memory
    }
}
