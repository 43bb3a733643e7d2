//! Why a call gives no result.

use std::alloc::{AllocError, AllocFailed};

/// A limit that a call met, or out of memory. Each crate names it for its own limits.
#[derive(Clone, Copy, Debug, PartialEq, Eq, Drop)]
pub enum Halt<L> {
    Limit(L),
    OutOfMemory,
}

impl<L: Drop> From<AllocError> for Halt<L> {
    ghost use Rattle.std.specs.Prelude.{◌≡◌};
    ghost use Rattle.qe_halt.specs.declared.halt.Halt.{Halt};

    ghost from_gives = { λ _ e. e ≡ Halt.OutOfMemory };

    fn from(_error: AllocError) -> Halt<L> {
        Halt::OutOfMemory
    }
}

impl<L: Drop, T: Drop> From<AllocFailed<T>> for Halt<L> {
    ghost use Rattle.std.specs.Prelude.{◌≡◌};
    ghost use Rattle.qe_halt.specs.declared.halt.Halt.{Halt};

    ghost from_gives = { λ _ e. e ≡ Halt.OutOfMemory };

    fn from(_error: AllocFailed<T>) -> Halt<L> {
        Halt::OutOfMemory
    }
}
