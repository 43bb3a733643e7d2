//! Why there is no formula for an atom.

ghost use Rattle.std.specs.Prelude.{◌≡◌};
ghost use Rattle.qe_halt.specs.Outcome.{stop_within};
ghost use Rattle.qe_subst.specs.Fault.{fault_in};

use qe_halt::Halt;
use qe_root::{PolyLimit, PolyStop, Stage};

/// A limit that an operation on polynomials met, and the step in which it did.
#[derive(Clone, Copy)]
pub struct Fault {
    pub stage: Stage,
    pub limit: PolyLimit,
}

/// Why there is no formula for an atom.
pub type AtomStop = Halt<Fault>;

/// The stop of an operation, in this step.
pub fn stop_in(stage: Stage, stop: PolyStop) -> AtomStop
    ensures { result ≡ stop_within (fault_in stage) stop }
{
    match stop {
        PolyStop::Limit(limit) => AtomStop::Limit(Fault { stage, limit }),
        PolyStop::OutOfMemory => AtomStop::OutOfMemory,
    }
}
