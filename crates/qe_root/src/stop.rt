//! Why a substitution gives no formula.

use qe_poly::PolyLimit;
use std::alloc::AllocError;

/// The step in which a limit was met.
#[derive(Clone, Copy, Debug, PartialEq, Eq)]
pub enum Stage {
    /// The guard of a candidate.
    Guard,
    /// The value of a polynomial at a root.
    Root,
    /// The formula for the sign of that value.
    Sign,
    /// The derivative of a polynomial.
    Slope,
}

/// Why a substitution gives no formula.
#[derive(Clone, Copy, Debug, PartialEq, Eq)]
pub enum SubstStop {
    /// An operation on polynomials met a limit: at the atom with this number, counted from 0, in
    /// this step.
    At {
        atom: u64,
        stage: Stage,
        limit: PolyLimit,
    },
    /// The formula would have more than 65,536 atoms.
    TooLarge,
    OutOfMemory,
}

impl From<AllocError> for SubstStop {
    ghost use Rattle.std.specs.Prelude.{◌≡◌};
    ghost use Rattle.qe_root.specs.declared.stop.SubstStop.{SubstStop};

    ghost from_gives = { λ _ e. e ≡ SubstStop.OutOfMemory };

    fn from(_error: AllocError) -> SubstStop {
        SubstStop::OutOfMemory
    }
}
