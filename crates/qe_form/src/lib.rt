//! Formulas: sets of signs, atoms, formulas and the names of their variables, and what they mean.
//! Knows nothing of elimination. Value, truth and sameness are defined in specs/.
#![tactic(auto)]

mod form;
mod hash;
pub mod laws;
mod making;
mod measures;
mod names;
mod negation;
mod order;
mod signs;

pub use form::{Atom, Form, Forms};
pub use measures::{MOST_COUNTED, count_sum};
pub use names::{Input, Names};
pub use qe_list::Sequence;
pub use qe_poly::{Poly, Var};
pub use signs::Signs;
pub use std::alloc::AllocError as OutOfMemory;
