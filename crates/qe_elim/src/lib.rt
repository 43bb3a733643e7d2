//! Elimination of the blocks of quantifiers of a prenex form, from the innermost, each by a search
//! through its tree of nodes. Knows nothing of texts, nor of how a node gets its successors.
#![tactic(auto)]

mod block;
mod eliminate;
pub mod laws;
mod search;
mod step;
mod steps;

pub use eliminate::{ElimStop, Outcome, eliminate_alone};
pub use qe_form::Var;
pub use qe_node::NodeStop;
pub use std::alloc::AllocError as OutOfMemory;
pub use step::Step;
