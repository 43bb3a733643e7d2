//! The simplifier: atoms on one polynomial become one by their sets of signs, constants and
//! repeated parts go, and the parts stand in order. Knows nothing of elimination.
#![tactic(auto)]

mod atom;
mod connective;
mod formula;
pub mod laws;
mod merge;

pub use formula::simplify;
pub use std::alloc::AllocError as OutOfMemory;
