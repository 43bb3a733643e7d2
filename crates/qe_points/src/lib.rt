//! Test points: which variable is eliminated first, its candidates, and the guard and the point of
//! each. Knows nothing of substitution, nodes and blocks.
#![tactic(auto)]

mod candidate;
mod candidate_list;
mod choice;
mod guard;

pub use candidate::{Candidate, Which};
pub use candidate_list::candidates;
pub use choice::choose;
pub use guard::{GuardedPoint, guarded};
pub use qe_form::{Form, Var};
pub use qe_poly::{Poly, PolyLimit};
pub use qe_root::{Point, RootPoint, Stage, SubstStop};
pub use std::alloc::AllocError as OutOfMemory;
